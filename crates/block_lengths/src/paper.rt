// Tables 7.1 and 7.2 as they are used: two misprints are put right, every other number is the paper's.
ghost use Rattle.std.specs.Prelude.{◌≡◌, get_or};
ghost use Rattle.block_lengths.specs.Told.{column_found};
ghost use Rattle.block_lengths.specs.Paper.{speeds, column_of, table71, table72};

// Table 7.1, a row for each headway of 120, 180, .., 600 s. 3030 is printed as 3930.
pub fn table_7_1() -> [[u16; 6]; 9]
    ensures { result ≡ table71 }
{
    [
        [1400, 1900, 2070, 2830, 3510, 4431],
        [2260, 3030, 3290, 4460, 5490, 6910],
        [3110, 4160, 4510, 6080, 7480, 9390],
        [3970, 5290, 5730, 7700, 9460, 11880],
        [4830, 6420, 6950, 9330, 11450, 14360],
        [5690, 7540, 8160, 10950, 13430, 16837],
        [6540, 8670, 9380, 12580, 15415, 19320],
        [7400, 9800, 10600, 14200, 17400, 21800],
        [8260, 10930, 11820, 15824, 19380, 24280],
    ]
}

// Table 7.2, likewise. 2900 is printed as 2290.
pub fn table_7_2() -> [[u16; 6]; 9]
    ensures { result ≡ table72 }
{
    [
        [1210, 1670, 1820, 2490, 3090, 3910],
        [1980, 2670, 2900, 3930, 4850, 6110],
        [2740, 3670, 3980, 5370, 6610, 8310],
        [3500, 4670, 5060, 6810, 8370, 10510],
        [4260, 5670, 6140, 8250, 10130, 12710],
        [5020, 6670, 7220, 9690, 11890, 14910],
        [5780, 7670, 8300, 11130, 13650, 17110],
        [6540, 8670, 9380, 12570, 15410, 19310],
        [7300, 9670, 10460, 14010, 17170, 21510],
    ]
}

// The six speeds in km/h, one for each column.
const SPEEDS: [u32; 6] = [70, 90, 100, 130, 160, 200];

// The speed of a column; 0 where there is no such column.
pub fn speed_of(column: usize) -> u32
    ensures { result ≡ get_or speeds column 0 }
{
    if column < 6 { SPEEDS[column] } else { 0 }
}

// The column of a speed, where one of them has it.
pub fn column_of(speed: u32) -> Option<usize>
    ensures { result ≡ column_found (column_of speed) }
{
    SPEEDS.iter().position(|own| *own == speed)
}
