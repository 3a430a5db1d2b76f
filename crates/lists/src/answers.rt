// The answer to a call, and the bytes at the front of it.
use rules::{Fault, Refusal};

// 0 or the refusal's number; and what the two bytes behind it say: a length, or the line of a comma list that is refused, else 0.
// The numbers that the bytes spell, and no `Result`: it would be taken apart for them where they are laid.
#[derive(Clone, Copy)]
pub struct Answer {
    pub number: u32,
    pub behind: usize,
}

impl From<Result<usize, Refusal>> for Answer {
    fn from(answer: Result<usize, Refusal>) -> Answer {
        match answer {
            Ok(length) => Answer {
                number: 0,
                behind: length,
            },
            Err(refusal) => Answer {
                number: refusal.number(),
                behind: 0,
            },
        }
    }
}

impl From<Result<(), Refusal>> for Answer {
    fn from(answer: Result<(), Refusal>) -> Answer {
        Answer::from(answer.map(|()| 0))
    }
}

// Of a comma list.
impl From<Result<(), Fault>> for Answer {
    fn from(answer: Result<(), Fault>) -> Answer {
        match answer {
            Ok(()) => Answer {
                number: 0,
                behind: 0,
            },
            Err(fault) => Answer {
                number: fault.refusal.number(),
                behind: fault.place.line(),
            },
        }
    }
}

impl Answer {
    // The number as a byte, and behind it, where they are given, the two bytes.
    pub fn lay(self, bytes: &mut [u8]) {
        let [.., number] = self.number.to_be_bytes();
        let [.., high, low] = self.behind.to_be_bytes();
        for (byte, value) in bytes.iter_mut().zip([number, high, low]) {
            *byte = value;
        }
    }
}
