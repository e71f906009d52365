// What a write of a field answers C: a Result as the struct that the header declares.
ghost use Rattle.std.specs.Prelude.{◌≡◌, ℕ, List};
ghost use Rattle.schedule.specs.Said.{written};
ghost use Rattle.schedule.specs.Writing.{outcome};

use schedule::writing::WriteRefusal;

// Kind 0 and the place after the field, or a refusal's kind and 0.
#[repr(C)]
#[derive(Clone, Copy)]
pub struct Written {
    pub kind: u32,
    pub value: usize,
}

impl From<Result<usize, WriteRefusal>> for Written {
    ghost from_gives = { λ answer told. (buffer : List ℕ) → outcome told.kind told.value buffer ≡ written answer buffer };

    fn from(answer: Result<usize, WriteRefusal>) -> Written {
        match answer {
            Ok(value) => Written { kind: 0, value },
            Err(refusal) => Written {
                kind: u32::from(refusal),
                value: 0,
            },
        }
    }
}
