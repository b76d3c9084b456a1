// What a map tells of an image.
use kl_base::Name;
use kl_model::Placement;

/// The name of an image, the seed that its order and gaps were drawn from, and where its parts stand.
#[derive(Debug, Drop)]
pub struct Map {
    pub output: Name,
    pub seed: [u8; 32],
    pub placement: Placement,
}
