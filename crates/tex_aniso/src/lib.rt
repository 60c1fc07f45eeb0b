//! Lookups along the longer axis of a pixel's footprint: as many trilinear probes as it needs, and
//! their mean.
#![tactic(auto)]

mod averaging;
mod axis;
mod bell;
mod ellipse_probes;
mod ellipse_request;
mod footprint;
mod line_mean;
mod placing;
mod probe_line;
mod probe_plan;
mod shape;
mod side_probes;
mod weighted_sums;

pub use averaging::derivs;
pub use ellipse_probes::{ellipse, ellipse_line};
pub use ellipse_request::EllipseRequest;
pub use footprint::plan;
pub use line_mean::probes;
pub use placing::probe;
pub use probe_line::{MAX_LINE_PROBES, ProbeLine};
pub use probe_plan::ProbePlan;
