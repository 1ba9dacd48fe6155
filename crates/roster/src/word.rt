// The words that name a kind of module.
ghost use Rattle.std.specs.Prelude.{◌≡◌};
ghost use Rattle.roster.specs.Word.{kind_by, named, small_letters};

#[derive(Clone, Copy)]
pub enum Kind {
    Dimmer,
    Outlet,
}

#[tactic(auto, unfolding(crate::specs::Word::named))]
pub fn named(word: &[u8]) -> Option<Kind>
    ensures { result ≡ named word.now }
{
    kind_by(word == b"dimmer".as_slice(), word == b"outlet".as_slice())
}

// In a file a pupil may write `Dimmer`: capital letters count as small ones.
#[tactic(auto, unfolding(crate::specs::Word::named))]
pub(crate) fn named_any(word: &[u8]) -> Option<Kind>
    ensures { result ≡ named (small_letters word.now) }
{
    kind_by(
        word.eq_ignore_ascii_case(b"dimmer"),
        word.eq_ignore_ascii_case(b"outlet"),
    )
}

// By whether it has the dimmer's name, and whether it has the outlet's.
#[tactic(auto, unfolding(basis::specs::Choice::choose))]
fn kind_by(is_dimmer: bool, is_outlet: bool) -> Option<Kind>
    ensures { result ≡ kind_by is_dimmer is_outlet }
{
    if is_dimmer {
        Some(Kind::Dimmer)
    } else if is_outlet {
        Some(Kind::Outlet)
    } else {
        None
    }
}
