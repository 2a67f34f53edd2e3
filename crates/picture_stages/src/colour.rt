//! Colours: a sensor's value as 0 to 255, and what a colour shows.
ghost use Rattle.std.specs.Prelude.{◌≡◌, ◌+◌, ◌≤◌};
ghost use Rattle.cam_types.specs.Picture.{chroma_blue, chroma_red, luma, scaled as scaled_of};

/// 25 * 44,611 is 255 / 959 in steps of 1 / 2^22, rounded up: no value of the sensor is scaled otherwise by it. The two
/// products are apart so that lanes of 16 bits hold each.
const SCALE: u32 = 44_611;

/// A value of the sensor, of which it's given how far it lies above darkness, 0 to 959, as 0 to 255.
pub fn scaled(above_dark: u16) -> u16
    requires full { above_dark ≤ 959 }
    ensures value { result ≡ scaled_of (above_dark + 64) }
    ensures most { result ≤ 255 }
{
    (((above_dark * 25) as u32 * SCALE) >> 16) as u16 >> 6
}

/// The brightness of a colour.
pub fn luma_of(red: u16, green: u16, blue: u16) -> u8
    requires red { red ≤ 255 }
    requires green { green ≤ 255 }
    requires blue { blue ≤ 255 }
    ensures { result ≡ luma red green blue }
{
    ((66 * red + 129 * green + 25 * blue + 128) / 256 + 16) as u8
}

/// The two differences of a colour, blue and red.
pub fn chroma_of(red: u16, green: u16, blue: u16) -> (u8, u8)
    requires red { red ≤ 255 }
    requires green { green ≤ 255 }
    requires blue { blue ≤ 255 }
    ensures blue { result.0 ≡ chroma_blue red green blue }
    ensures red { result.1 ≡ chroma_red red green blue }
{
    let blue_difference = (32_896 - 38 * red - 74 * green + 112 * blue) / 256;
    let red_difference = (32_896 + 112 * red - 94 * green - 18 * blue) / 256;
    (blue_difference as u8, red_difference as u8)
}
