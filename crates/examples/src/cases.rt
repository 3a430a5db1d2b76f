// Cases from files: what is printed, held against what must be.
use crate::files::Case;
use rules::Refusal;
use std::rt::Files;

// Whether what was printed at the front of a buffer is a text.
pub fn is_text(answer: Result<usize, Refusal>, buf: &[u8], text: &[u8]) -> bool {
    match answer {
        Ok(size) => buf.get(..size) == Some(text),
        Err(_) => false,
    }
}

// Whether a case comes out as its text says, by its sheet, its text and a buffer to print into. Its files are read once, whatever is
// asked of them, and of its sheet as many bytes as there are places for.
pub fn comes_out<F: FnOnce(&[u8], &[u8], &mut [u8]) -> bool>(
    rt: &impl Files,
    case: Case,
    sheet: &mut [u8],
    is_right: F,
) -> bool
    requires { F.IsAlwaysCallable is_right }
{
    let mut text = buffers::zeroed::<8192>();
    let mut buf = buffers::zeroed::<8192>();
    let s = case.read(rt, ".sheet", sheet);
    let e = case.read(rt, ".out", &mut text);
    is_right(&sheet[..s], &text[..e], &mut buf)
}
