// Frames of 132 bytes: 128 data bytes, the back link and the forward link, low bytes first.
ghost use Rattle.std.specs.Prelude.{◌≡◌, ◌+◌, ◌*◌, ◌^◌, ◌<◌, ◌≤◌, length, slice_index_or};
ghost use Rattle.std.proofs.Math.Seq.{paste};
ghost use Rattle.std.specs.List.{AllByRecursion};
ghost use Rattle.device.specs.Device.{WellFormed, blank};
ghost use Rattle.device.specs.Flat.{frame, frames, frame_count, with_frame};

use crate::sector::Sector;

// As many sectors as there are whole frames, at most 65,535.
pub(crate) fn count_sectors(bytes: &[u8]) -> u16
    ensures count { result ≡ frame_count bytes.now }
    ensures value { result ≡ length (frames bytes.now) }
    ensures whole { AllByRecursion WellFormed (frames bytes.now) }
{
    let whole = bytes.len() / 132;
    // No `min`: after it the compiler copied each sector once more where one is read and written to another place.
    u16::try_from(whole).unwrap_or(65535)
}

// Sector n of those.
pub(crate) fn sector_in(bytes: &[u8], n: u16) -> Sector
    requires { n < length (frames bytes.now) }
    ensures { result ≡ slice_index_or (frames bytes.now) n blank }
{
    frame_at(bytes, n as usize)
}

// Frame n, where its bytes are there: what each read of them asks follows from this alone.
fn frame_at(bytes: &[u8], n: usize) -> Sector
    requires { 132 * n + 132 ≤ length bytes.now }
    ensures { result ≡ frame bytes.now n }
{
    let start = 132 * n;
    let mut data = [0; 128];
    data.copy_from_slice(&bytes[start..start + 128]);
    let back = u16::from_le_bytes([bytes[start + 128], bytes[start + 129]]);
    let forward = u16::from_le_bytes([bytes[start + 130], bytes[start + 131]]);
    Sector {
        bytes: data,
        back,
        forward,
    }
}

fn put_data(bytes: &mut [u8], start: usize, data: &[u8])
    requires { start + length «data».now ≤ length bytes.old }
    ensures after { bytes.new ≡ paste bytes.old start «data».now (length «data».now) }
    ensures small { AllByRecursion (λ b. b < 2 ^ 8) «data».now }
{
    bytes[start..start + data.len()].copy_from_slice(data);
}

// The links are put as four bytes in one piece: two pieces would need one lemma more.
pub(crate) fn put_frame(bytes: &mut [u8], n: usize, sector: &Sector)
    requires { 132 * n + 132 ≤ length bytes.old }
    ensures after { bytes.new ≡ with_frame bytes.old n sector.now }
    ensures whole { WellFormed sector.now }
{
    let start = 132 * n;
    let [back_low, back_high] = sector.back.to_le_bytes();
    let [forward_low, forward_high] = sector.forward.to_le_bytes();
    let links = [back_low, back_high, forward_low, forward_high];
    put_data(bytes, start, &sector.bytes);
    put_data(bytes, start + 128, &links);
}
