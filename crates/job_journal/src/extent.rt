// Where an area stands.
ghost use Rattle.std.specs.Prelude.{◌<◌, ◌+◌, ◌*◌, ◌^◌};

/// So many slots of two sectors each, from this sector on.
#[derive(Clone, Copy)]
pub struct Extent {
    pub first: u64,
    pub slots: u64,
    pub ghost fits: { first + 2 * slots < 2 ^ 64 },
}
