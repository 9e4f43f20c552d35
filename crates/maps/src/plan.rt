// What is decided for a map before it is written.
ghost use Rattle.std.specs.Prelude.{◌≤◌};

// Its count of entries, the bits of an inner number, an entry's bytes: with at most 4 the map can be written.
#[derive(Clone, Copy)]
pub struct MapPlan {
    pub count: usize,
    pub bits: usize,
    pub size: usize,
    pub ghost entries: { count ≤ 65535 },
    pub ghost inner: { (1 ≤ bits) × (bits ≤ 16) },
    pub ghost bytes: { (1 ≤ size) × (size ≤ 6) },
}
