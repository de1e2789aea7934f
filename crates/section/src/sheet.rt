// What a pass over a section is given.
ghost use Rattle.std.specs.Prelude.{◌≤◌, length};
ghost use Rattle.wire.specs.Read.{AreBytes};

// A table of slots with so many schemas, the shapes of these, a section, and how far it is from one parent to the next, or 0.
#[derive(Clone, Copy)]
pub(crate) struct Sheet<'a> {
    pub(crate) slots: &'a [u64; 512],
    pub(crate) schemas: usize,
    pub(crate) shapes: &'a [usize],
    pub(crate) section: &'a [u8],
    pub(crate) step: usize,
    ghost few: { schemas ≤ 256 },
    ghost bytes: { AreBytes section.now },
    ghost sized: { length section.now ≤ 16777216 },
    ghost short: { step ≤ 65536 },
}
