// One store into a table of a state.
ghost use Rattle.std.specs.Prelude.{◌≡◌, length};
ghost use Rattle.laws.specs.Tables.{put};

// A table of n gets v at place a; past its end nothing is stored.
pub fn store(xs: &mut [u8], n: usize, a: usize, v: u8)
    requires { length xs.old ≡ n }
    ensures { xs.new ≡ put n xs.old a v }
{
    if a < n {
        xs[a] = v;
    }
}
