//! A target, a sensitivity and scenes.
use cam_types::Listing;

/// A scene that stands still for some frames.
#[derive(Clone, Copy)]
pub struct Scene {
    /// The test pattern: 0 solid, 1 bars.
    pub pattern: u8,
    /// The pattern's brightness, 0 to 255.
    pub level: u32,
    /// How many frames are captured of it, 1 to 64.
    pub frames: u32,
}

/// The scenes, the first one first.
pub type SceneList = Listing<Scene>;

/// What a text of automatic exposure asks for. The scenes have at most 64 frames together.
#[derive(Drop)]
pub struct AutoText {
    /// The mean brightness that is to be reached, 16 to 240.
    pub target: u32,
    /// The sensitivity, 100 to 1,600.
    pub iso: u32,
    pub scenes: SceneList,
}
