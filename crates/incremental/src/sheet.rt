// What a pass over a fragment is given.
ghost use Rattle.shapes.specs.Shapes.{Sound};
ghost use Rattle.std.proofs.Props.{props};

// A table of slots with so many schemas, the shapes of these, and how far it is from one parent to the next, or 0.
#[derive(Clone, Copy)]
pub struct Sheet<'a> {
    pub slots: &'a [u64; 512],
    pub schemas: usize,
    pub shapes: &'a [usize],
    pub step: usize,
    ghost sound: { Sound slots.now schemas } by { Prim.hlevel props },
}
