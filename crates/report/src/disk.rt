// What lies on a disk; of sectors that cannot be read nothing is shown.
ghost use Rattle.std.specs.Prelude.{◌≡◌, ◌-◌, ◌≤◌, IfOk, string_bytes, vec_items};
ghost use Rattle.report.specs.Disk.{disk_text, links_text, sector_data};

use crate::dumps::{hex_lines, map_lines};
use crate::lines::link_line;
use device::ReadingDevice;
use std::alloc::{AllocError, Global};

// The data bytes of the sectors from first up to end, one after another.
fn sector_bytes<D: ReadingDevice>(
    heap: Global,
    device: &mut D,
    first: u16,
    end: u16,
) -> Result<Vec<u8>, AllocError>
    requires { first ≤ end }
    ensures data { IfOk result (λ v. vec_items v ≡ sector_data (D.medium device.old) first (end - first)) }
    ensures same { D.medium device.new ≡ D.medium device.old }
{
    let mut bytes = Vec::new(heap);
    for n in first..end {
        if let Ok(sector) = device.read(n) {
            bytes.extend_from_slice(&sector.bytes)?;
        }
    }
    Ok(bytes)
}

// The links of the sectors from first up to end, a line each. Its loop is not shared with sector_bytes: a closure that appends
// to the one or the other buffer, and its laws, are longer than the loop.
fn sector_links<D: ReadingDevice>(
    heap: Global,
    device: &mut D,
    first: u16,
    end: u16,
) -> Result<String, AllocError>
    requires { first ≤ end }
    ensures text { IfOk result (λ s. string_bytes s ≡ links_text (D.medium device.old) first (end - first)) }
    ensures same { D.medium device.new ≡ D.medium device.old }
{
    let mut text = String::new(heap);
    for n in first..end {
        if let Ok(sector) = device.read(n) {
            let links = link_line(heap, n, &sector)?;
            writeln!(text, "{links}")?;
        }
    }
    Ok(text)
}

// The label, the map and the directory's links, as they lie on the disk.
pub fn disk_lines<D: ReadingDevice>(heap: Global, device: &mut D) -> Result<String, AllocError>
    ensures text { IfOk result (λ s. string_bytes s ≡ disk_text (D.medium device.old)) }
    ensures same { D.medium device.new ≡ D.medium device.old }
{
    let label = sector_bytes(heap, device, 0, 1)?;
    let label = hex_lines(heap, label.as_slice())?;
    let map = sector_bytes(heap, device, 1, 4)?;
    let bytes = hex_lines(heap, map.as_slice())?;
    let end = map.len().min(device.count().div_ceil(8) as usize);
    let marks = map_lines(heap, &map[..end])?;
    let links = sector_links(heap, device, 4, 36)?;
    format!(in heap;
        "
Label, sector 0:
{label}
Map, sectors 1 to 3:
{bytes}
Sectors allocated (#) and free (.), by the map:
{marks}
Links of the directory:
{links}"
    )
}
