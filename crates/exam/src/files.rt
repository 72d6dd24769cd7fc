// The image file that an exam is set on, or a blank image in memory.
ghost use Rattle.std.specs.Prelude.{◌≡◌, ◌*◌, ◌%◌, IfOk, IsNone, IsOk, length, replicate, vec_items};

use anyhow::anyhow;
use device::FlatImage;
use std::alloc::{AllocError, Global};
use std::fs;

// The bytes of a blank image of so many sectors.
pub fn blank(heap: Global, sectors: u16) -> Result<Vec<u8>, AllocError>
    ensures { IfOk result (λ v. vec_items v ≡ replicate (132 * sectors) 0) }
{
    vec![in heap; 0; 132 * sectors as usize]
}

// The bytes of an image file, which are whole frames.
pub fn read_image(rt: &HostRuntime, path: &str) -> anyhow::Result<Vec<u8>>
    ensures { IfOk result (λ v. length (vec_items v) % 132 ≡ 0) }
{
    let heap = rt.alloc();
    let bytes = fs::read(rt, path).try_map_err(|error| {
        let message = format!(in heap; "cannot read {path}: {error}")?;
        Ok(anyhow!(message))
    })?;
    if !FlatImage::is_whole(bytes.as_slice()) {
        return Err(anyhow!(format!(in heap;
            "{path} is no image: its size is not a multiple of 132 bytes"
        )?));
    }
    Ok(bytes)
}

// The bytes of the image at the path, or of 64 empty sectors where there is none.
pub fn image_at(rt: &HostRuntime, path: Option<&str>) -> anyhow::Result<Vec<u8>>
    ensures whole { IfOk result (λ v. length (vec_items v) % 132 ≡ 0) }
    ensures empty { IsNone path.entry → IfOk result (λ v. vec_items v ≡ replicate (64 * 132) 0) }
{
    match path {
        None => Ok(blank(rt.alloc(), 64)?),
        Some(path) => read_image(rt, path),
    }
}

// Writes the image back to the path; an image in memory is let go.
pub fn keep_at(rt: &HostRuntime, path: Option<&str>, image: &[u8]) -> anyhow::Result<()>
    ensures { IsNone path.entry → IsOk result }
{
    let Some(path) = path else {
        return Ok(());
    };
    let heap = rt.alloc();
    fs::write(rt, path, image).try_map_err(|error| {
        let message = format!(in heap; "cannot write {path}: {error}")?;
        Ok(anyhow!(message))
    })
}
