// The list of requests, and what comes of it.
ghost use Rattle.std.specs.Prelude.{◌≡◌, ◌++◌, IfOk, map, string_bytes, vec_items};
ghost use Rattle.drive.specs.Exchanges.{call_of};
ghost use Rattle.exam.specs.Calls.{ExamTaken, exam_calls};
ghost use Rattle.report.specs.Disk.{disk_text};
ghost use Rattle.report.specs.Text.{exchanges_text};

use device::WritingDevice;
use drive::{Exchange, Request, run};
use freespace::SectorAllocator;
use report::{disk_lines, exchanges_lines};
use std::alloc::{AllocError, Global};

// FORMAT refused for the tab, for the door and for its ID, then accepted; STATUS before and after.
fn exam_requests(heap: Global) -> Result<Vec<Exchange>, AllocError>
    ensures { IfOk result (λ v. map call_of (vec_items v) ≡ exam_calls) }
{
    let requests = vec![in heap;
        Request::Status,
        Request::Tab { on: true },
        Request::Format {
            id: b"EXAM 1".to_vec(heap)?
        },
        Request::Tab { on: false },
        Request::Door { open: true },
        Request::Format {
            id: b"EXAM 1".to_vec(heap)?
        },
        Request::Door { open: false },
        Request::Format {
            id: b"EXAM;1".to_vec(heap)?
        },
        Request::Format {
            id: b"EXAM 1".to_vec(heap)?
        },
        Request::Status,
    ]?;
    requests
        .into_iter()
        .map(|request| Exchange::new(request, Vec::new(heap)))
        .collect(heap)
}

// Serves the list from a new drive; the device is handed back with the exchanges.
pub fn take_exam<D: WritingDevice + Drop, A: SectorAllocator + Drop>(
    heap: Global,
    device: D,
    allocator: A,
) -> Result<(D, Vec<Exchange>), AllocError>
    ensures { IfOk result (λ r. ExamTaken D.ReadingDevice A.SectorAllocator device allocator r.0 (vec_items r.1)) }
{
    let mut exchanges = exam_requests(heap)?;
    let drive = run(device, allocator, exchanges.as_mut_slice());
    Ok((drive.release(), exchanges))
}

// The exam as text: each request with its answer, then what lies on the disk that is handed back.
pub fn exam_text<D: WritingDevice + Drop, A: SectorAllocator + Drop>(
    heap: Global,
    device: D,
    allocator: A,
) -> Result<(D, Vec<Exchange>, String), AllocError>
    ensures taken { IfOk result (λ r. (back : D) × ExamTaken D.ReadingDevice A.SectorAllocator device allocator back (vec_items r.1) × (D.medium r.0 ≡ D.medium back)) }
    ensures text { IfOk result (λ r. string_bytes r.2 ≡ exchanges_text (vec_items r.1) ++ disk_text (D.medium r.0)) }
{
    let (mut device, exchanges) = take_exam(heap, device, allocator)?;
    let served = exchanges_lines(heap, exchanges.as_slice())?;
    let disk = disk_lines(heap, &mut device)?;
    let text = format!(in heap; "{served}{disk}")?;
    Ok((device, exchanges, text))
}
