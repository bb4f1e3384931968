// What has one of the documents' numbers.
ghost use Rattle.std.specs.Prelude.{ℕ, ◌≡◌};
ghost use Rattle.shape.specs.Marks.{mark_number};
ghost use Rattle.refusal.specs.Numbers.{refused};

use crate::Refusal;
use shape::Mark;

// A number itself, a mark, and what a check found: the calls that take one take each of them.
pub trait HasNumber: Copy {
    ghost numbered: { Self → ℕ };

    fn as_number(self) -> u8
        ensures { result ≡ numbered self };
}

impl HasNumber for u8 {
    ghost numbered = { λ n. n };

    fn as_number(self) -> u8 {
        self // as it is
    }
}

impl HasNumber for Mark {
    ghost numbered = { mark_number };

    fn as_number(self) -> u8 {
        self.number()
    }
}

impl<T: Copy> HasNumber for Result<T, Refusal> {
    ghost numbered = { refused };

    fn as_number(self) -> u8 {
        crate::number_of(self)
    }
}
