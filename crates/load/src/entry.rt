// All that a kind's own table can say of a direct command. The load afterwards stands beside it; what else a module has, no kind sees.
ghost use Rattle.std.specs.Prelude.{◌≡◌};
ghost use Rattle.load.specs.Answer.{becomes, stays};

#[derive(Clone, Copy)]
pub enum Entry {
    // Carried out, and ACKed with both commands: the load is the one beside it.
    Done,
    // Nothing changes, and the ACK has the delta for its Command 1, and this for its Command 2.
    Shows(u8),
    // Nothing changes, and the ACK is followed by the module's properties, with these of the kind.
    Shown(Properties),
    // As every kind has it.
    Shared,
    // Result 7: a row that a table can have like the others, and no Result.
    Unlisted,
}

// What Get Properties shows of a kind ("Direct commands, extended").
#[derive(Clone, Copy)]
pub struct Properties {
    pub ramp: u8,
    pub on_level: u8,
}

// What a table has for a command, and the load afterwards: a kind's own load, or one of any kind. The load stands beside `Done` and not in
// it, as the legal tables (`Dimmer`, `Outlet`) say the load and the entry of every row.
#[derive(Clone, Copy)]
pub struct LoadEntry<L> {
    pub load: L,
    pub entry: Entry,
}

// Carried out: the load is this one then.
pub fn becomes<L>(load: L) -> LoadEntry<L>
    ensures { result ≡ becomes load }
{
    LoadEntry {
        load,
        entry: Entry::Done,
    }
}

// The load is what it was.
pub fn stays<L>(load: L, entry: Entry) -> LoadEntry<L>
    ensures { result ≡ stays load entry }
{
    LoadEntry { load, entry }
}
