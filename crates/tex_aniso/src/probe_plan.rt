//! The probes along the longer pixel step of a footprint.
/// What is made of a lookup along a footprint on an image.
#[derive(Clone, Copy, Debug, PartialEq, Eq)]
pub struct ProbePlan {
    /// The number of probes: 1 to 8.
    pub n: u32,
    /// The LOD of each probe.
    pub lod: u32,
    /// How far the longer axis of the footprint goes across.
    pub ds: i32,
    /// How far it goes down.
    pub dt: i32,
}
