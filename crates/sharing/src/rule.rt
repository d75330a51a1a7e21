//! The rule by which a surplus is shared.
ghost use Rattle.std.specs.Prelude.{◌≡◌, ◌*◌, ◌^◌, ◌<◌, ◌≤◌};
ghost use Rattle.sharing.specs.Rule.{portion, PortionOfNone, PortionOfAll, PortionNeverFalls, PortionAmongNone, PortionSamples};
ghost use Rattle.sharing.specs.Gaps.{upward};

/// What the first `part` of `whole` units get of a surplus.
pub fn portion_of(surplus: u64, part: u64, whole: u64) -> u64
    requires { surplus * part < 2 ^ 64 }
    ensures { result ≡ portion surplus part whole }
{
    if whole == 0 {
        return 0;
    }
    surplus * part / whole
}

/// A number from zero up as it is, one below zero as zero.
pub fn upward(n: i64) -> u64
    ensures { result ≡ upward n }
{
    u64::try_from(n).unwrap_or(0)
}

/// None get nothing, all get all, more never get less, and among none nothing is shared.
pub fn portions_are_fair()
    ensures none { PortionOfNone }
    ensures all { PortionOfAll }
    ensures never_falls { PortionNeverFalls }
    ensures among_none { PortionAmongNone }
    ensures samples { PortionSamples }
{}
