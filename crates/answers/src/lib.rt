// Inner crate: why a call is refused, an answer as C reads it, and how it is held to the rules.
#![tactic(auto)]

ghost use Rattle.std.specs.Prelude.{◌≡◌};
ghost use Rattle.answers.specs.Answers.{code_of, as_answer};

// Why a call is refused. The numbers are those of errno, and what they are called there stands behind them.
#[derive(Clone, Copy, Debug, PartialEq, Eq)]
pub enum Refusal {
    NoEntry = 2, // ENOENT
    TooBig = 7, // E2BIG
    NoMemory = 12, // ENOMEM
    Fault = 14, // EFAULT
    Busy = 16, // EBUSY
    Invalid = 22, // EINVAL
    NotSupported = 95, // EOPNOTSUPP
}

impl Refusal {
    // The code by which C knows the refusal. A method, no From: every number is a u32, and few are a code.
    pub fn code(self) -> u32
        ensures { result ≡ code_of self }
    {
        self as u32
    }
}

// A code, 0 if accepted, and a count: what a public call returns to C. Drop alone: nothing copies it.
#[repr(C)]
#[derive(Drop)]
pub struct Answer {
    pub code: u32,
    pub count: u64,
}

impl From<Result<u64, Refusal>> for Answer {
    ghost from_gives = { λ outcome answer. answer ≡ as_answer outcome };

    fn from(outcome: Result<u64, Refusal>) -> Answer {
        match outcome {
            Ok(count) => Answer { code: 0, count },
            Err(refusal) => Answer {
                code: refusal.code(),
                count: 0,
            },
        }
    }
}
