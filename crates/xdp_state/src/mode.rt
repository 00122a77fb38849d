ghost use Rattle.std.specs.Prelude.{◌≡◌};
ghost use Rattle.xdp_state.specs.Members.{differs};

/// How an interface runs its programs; it is recorded only.
#[derive(Clone, Copy, Debug, PartialEq, Eq)]
pub enum Mode {
    Native,
    Skb,
}

/// Whether there is a mode, and it is another one.
pub(crate) fn differs(there: Option<Mode>, mode: Mode) -> bool
    ensures { result ≡ differs there mode }
{
    there.is_some_and(|there| there != mode)
}
