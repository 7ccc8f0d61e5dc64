// The reasons for which an event is refused, and the number and the detail that each is answered by (section 3).
ghost use Rattle.std.specs.Prelude.{◌≡◌};
ghost use Rattle.reasons.specs.Refusal.{refused_if};
ghost use Rattle.reasons.specs.Told.{told, number_of, detail_of};

// A reason, by its object: a route, a point, a section, a line's direction or a signal. The lowest object to which it applies is the detail.
#[derive(Clone, Copy, PartialEq, Eq)]
pub enum Reason {
    UnknownKind,
    NoSuchObject(u32),
    WrongNumber,
    RouteLocked(u8),
    RouteConflicts(u8),
    PointNotPlaced(u8),
    SectionOccupied(u8),
    SectionReadsNone(u8),
    LineNotSecured(u8),
    BlockHeld(u8),
    BlockBarred(u8),
    LineSecured(u8),
    RouteNotLocked(u8),
    RouteCancelling(u8),
    PointInRoute(u8),
    PointInLine(u8),
    ExitLocked(u8),
    Unsound,
    NoHeads(u32),
    SignalDark(u8),
    HasHeads(u32),
    HeadSilent(u32),
}

impl Reason {
    // The number of the answer.
    pub fn number(self) -> u8
        ensures { result ≡ number_of self }
    {
        match self {
            Reason::UnknownKind => 1,
            Reason::NoSuchObject(_) => 2,
            Reason::WrongNumber => 3,
            Reason::RouteLocked(_) => 4,
            Reason::RouteConflicts(_) => 5,
            Reason::PointNotPlaced(_) => 6,
            Reason::SectionOccupied(_) => 7,
            Reason::SectionReadsNone(_) => 8,
            Reason::LineNotSecured(_) => 9,
            Reason::BlockHeld(_) => 10,
            Reason::BlockBarred(_) => 11,
            Reason::LineSecured(_) => 12,
            Reason::RouteNotLocked(_) => 13,
            Reason::RouteCancelling(_) => 14,
            Reason::PointInRoute(_) => 15,
            Reason::PointInLine(_) => 16,
            Reason::ExitLocked(_) => 17,
            Reason::Unsound => 18,
            Reason::NoHeads(_) => 30,
            Reason::SignalDark(_) => 31,
            Reason::HasHeads(_) => 34,
            Reason::HeadSilent(_) => 35,
        }
    }

    // The detail of the answer: the object's number, 0 where the reason has none.
    pub fn detail(self) -> u32
        ensures { result ≡ detail_of self }
    {
        match self {
            Reason::UnknownKind | Reason::WrongNumber | Reason::Unsound => 0,
            Reason::NoSuchObject(a) => a,
            Reason::NoHeads(g) | Reason::HasHeads(g) | Reason::HeadSilent(g) => g,
            Reason::SectionOccupied(g) | Reason::SectionReadsNone(g) => g as u32,
            Reason::BlockHeld(g) | Reason::BlockBarred(g) => g as u32,
            Reason::RouteLocked(r) | Reason::RouteConflicts(r) => r as u32,
            Reason::RouteNotLocked(r) | Reason::RouteCancelling(r) => r as u32,
            Reason::PointInRoute(r) | Reason::ExitLocked(r) => r as u32,
            Reason::PointNotPlaced(p) => p as u32,
            Reason::LineNotSecured(l) | Reason::PointInLine(l) => l as u32,
            Reason::LineSecured(w) => w as u32,
            Reason::SignalDark(x) => x as u32,
        }
    }
}

// Refused for the reason where the test holds.
#[tactic(auto, using(crate::proofs::Decided::decided), unfolding(crate::specs::Refusal::refused_if))]
pub fn reason_if(test: bool, reason: Reason) -> Result<(), Reason>
    ensures { told result ≡ refused_if test (number_of reason) (detail_of reason) }
{
    if test {
        return Err(reason);
    }
    Ok(())
}
