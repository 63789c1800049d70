// The sections of the table of a file's records: where each begins, and an entry of it. The table is one list of numbers: nine
// sections with an entry for each label, then two with an entry for each procedure. Every function is total.
#![tactic(auto)]

ghost use Rattle.std.specs.Prelude.{◌≡◌, ◌+◌};
ghost use Rattle.sections.specs.Look.{look_in};

// So many labels and procedures have entries.
pub const LABELS: usize = 1024;

pub const PROCEDURES: usize = 64;

// Of each record where it stands in the file and its kind; its construct's IF or FROM, its ELSE or LOOP, and its FI or UNTIL.
pub const OFFSET: usize = 0;

pub const KIND: usize = 1024;

pub const HEAD: usize = 2048;

pub const MIDDLE: usize = 3072;

pub const TAIL: usize = 4096;

// Of each record the label that one comes to from it, downwards and upwards; the frame that is open after it; and its procedure.
pub const DOWN: usize = 5120;

pub const UP: usize = 6144;

pub const OPEN: usize = 7168;

pub const OWNER: usize = 8192;

// Of each procedure its BEGIN and its END.
pub const FIRST: usize = 9216;

pub const LAST: usize = 9280;

// So many entries in all.
pub const SIZE: usize = 9344;

// An entry of the table, 0 past its end.
#[tactic(auto, unfolding(crate::specs::Look::look_in))]
pub fn look(table: &[u16; SIZE], i: usize) -> u16
    ensures { result ≡ look_in table.now i }
{
    table.get(i).copied().unwrap_or(0)
}

// The entry of a label in the section that starts there; no sum can wrap.
#[tactic(auto, unfolding(crate::specs::Look::look_in))]
pub fn entry(table: &[u16; SIZE], section: usize, label: u16) -> u16
    ensures { result ≡ look_in table.now (section + label) }
{
    look(table, section.saturating_add(usize::from(label)))
}
