//! Worked values of the pictures' formulas, as facts.
ghost use Rattle.std.specs.Prelude.{◌≡◌, ℕ};
ghost use Rattle.cam_types.specs.Picture.{chroma_blue, chroma_red, luma, scaled, sensor_value};
ghost use Rattle.cam_types.specs.Worked.{shot};

/// Sensor values: of solid frames everywhere, of bars and of a ramp at some places.
pub fn worked_sensor_values()
    ensures solid { (n x y : ℕ) → sensor_value (shot 0 100 10000000 100) n x y ≡ 464 }
    ensures bright { (n x y : ℕ) → sensor_value (shot 0 255 100000000 1600) n x y ≡ 1023 }
    ensures dark { (n x y : ℕ) → sensor_value (shot 0 0 100000 100) n x y ≡ 64 }
    ensures bar_red { (n : ℕ) → sensor_value (shot 1 200 10000000 100) n 20 0 ≡ 864 }
    ensures bar_green { (n : ℕ) → sensor_value (shot 1 200 10000000 100) n 21 0 ≡ 864 }
    ensures bar_blue { (n : ℕ) → sensor_value (shot 1 200 10000000 100) n 21 1 ≡ 64 }
    ensures ramp_first { sensor_value (shot 2 0 10000000 100) 3 0 0 ≡ 76 }
    ensures ramp_second { sensor_value (shot 2 0 10000000 100) 3 1 0 ≡ 80 }
    ensures ramp_last { sensor_value (shot 2 0 10000000 100) 3 159 119 ≡ 164 }
{}

/// Colours of cells: of a solid grey, and of the yellow bar.
pub fn worked_colours()
    ensures grey_luma { luma (scaled 464) (scaled 464) (scaled 464) ≡ 107 }
    ensures grey_blue { chroma_blue (scaled 464) (scaled 464) (scaled 464) ≡ 128 }
    ensures grey_red { chroma_red (scaled 464) (scaled 464) (scaled 464) ≡ 128 }
    ensures yellow_luma { luma (scaled 864) (scaled 864) (scaled 64) ≡ 177 }
    ensures yellow_blue { chroma_blue (scaled 864) (scaled 864) (scaled 64) ≡ 35 }
    ensures yellow_red { chroma_red (scaled 864) (scaled 864) (scaled 64) ≡ 143 }
{}
