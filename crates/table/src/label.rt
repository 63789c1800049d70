// The label of a record that has entries in the table.
ghost use Rattle.std.specs.Prelude.{◌<◌};

#[derive(Clone, Copy)]
pub struct Label {
    pub number: usize,
    pub ghost in_range: { number < 1024 },
}
