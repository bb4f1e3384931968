// The shape of a station: the numbers that bound it, and the lengths that follow from n and t. The calls on a session take them
// from here alone.
#![tactic(auto)]

ghost use Rattle.std.specs.Prelude.{◌≡◌};
ghost use Rattle.shape.specs.Marks.{mark_number};
ghost use Rattle.shape.specs.Lengths.{needed, f_length, v_length, checks_length, checks_at_of, sums_at_of, row_length, triple_length};
ghost use Rattle.shape.specs.Lengths.{rows_length, block_length, record_length, draw_length, triple_draw_length, packs_length, masks_length, Valid};

// How many posts a station may have.
pub const FEWEST_POSTS: usize = 2;

pub const MOST_POSTS: usize = 255;
// How many rows a session has, the last of them, and the last at which a triple begins.
pub const ROWS: usize = 96;

pub const LAST_ROW: usize = ROWS - 1;

pub const LAST_TRIPLE: usize = ROWS - 3;
// How many check points a post may have.
pub const MOST_POINTS: usize = 2;
// The most coefficients of a v, and the length of the longest row: of the most posts with the largest t, and two points.
pub const LONGEST_V: usize = 2 * MOST_POSTS - 1;

pub const LONGEST_ROW: usize = 5 * MOST_POSTS - 1;
// Stations of so few posts get smaller rooms, for their rows and their v's.
pub const FEW_POSTS: usize = 32;

pub const ROW_OF_FEW: usize = 5 * FEW_POSTS - 1;

pub const V_OF_FEW: usize = 2 * FEW_POSTS - 1;
// And of so very few, rooms that are smaller still.
pub const VERY_FEW_POSTS: usize = 8;

pub const ROW_OF_VERY_FEW: usize = 5 * VERY_FEW_POSTS - 1;

pub const V_OF_VERY_FEW: usize = 2 * VERY_FEW_POSTS - 1;

// The marks of rows, by the documents' numbers.
#[derive(Clone, Copy, PartialEq, Eq)]
pub enum Mark {
    Empty = 0,
    Raw = 1,
    Held = 2,
    // of an unused triple: its first row, and the other two
    Unused = 3,
    Further = 4,
    // of a triple's first row, once its masks were sent; of the rows that a product used up
    Masked = 5,
    Spent = 6,
    // of a triple's first row, once its masks were opened
    Collected = 7,
}

// The marks of a record's blocks.
pub const ABSENT: u32 = 0;

pub const PRESENT: u32 = 1;

// n posts, of which any t+1 bring a number out and t that keep the rules learn nothing, each with so many check points.
#[derive(Clone, Copy)]
pub struct Shape {
    pub n: usize,
    pub t: usize,
    pub points: usize,
}

// A post's check points. Where it has one, the second is 0 and not looked at.
#[derive(Clone, Copy)]
pub struct Points {
    pub first: u32,
    pub second: u32,
}

impl Mark {
    pub fn number(self) -> u8
        ensures { result ≡ mark_number self }
    {
        self as u8
    }
}

impl Shape {
    // How many accepted posts an opening needs.
    pub fn needed(self) -> usize
        requires { Valid self }
        ensures { result ≡ needed self }
    {
        self.t + 1
    }

    // How many coefficients f has.
    pub fn f_len(self) -> usize
        requires { Valid self }
        ensures { result ≡ f_length self }
    {
        self.t + 1
    }

    // How many coefficients v1 to vn have each, and so an opening message.
    pub fn v_len(self) -> usize
        requires { Valid self }
        ensures { result ≡ v_length self }
    {
        self.points * self.t + 1
    }

    // How many check values a row has.
    pub fn checks_len(self) -> usize
        requires { Valid self }
        ensures { result ≡ checks_length self }
    {
        self.points * self.n
    }

    // Where the check values begin in a row, and the public sums behind them.
    pub fn checks_at(self) -> usize
        requires { Valid self }
        ensures { result ≡ checks_at_of self }
    {
        self.v_len()
    }

    pub fn sums_at(self) -> usize
        requires { Valid self }
        ensures { result ≡ sums_at_of self }
    {
        let checks = self.checks_len();
        self.v_len() + checks
    }

    pub fn row_len(self) -> usize
        requires { Valid self }
        ensures { result ≡ row_length self }
    {
        let n = self.n;
        self.sums_at() + n
    }

    // A post's three rows of a triple.
    pub fn triple_len(self) -> usize
        requires { Valid self }
        ensures { result ≡ triple_length self }
    {
        3 * self.row_len()
    }

    // A session's rows.
    pub fn rows_len(self) -> usize
        requires { Valid self }
        ensures { result ≡ rows_length self }
    {
        ROWS * self.row_len()
    }

    // A block of a record: a mark and a message.
    pub fn block_len(self) -> usize
        requires { Valid self }
        ensures { result ≡ block_length self }
    {
        self.v_len() + 1
    }

    pub fn record_len(self) -> usize
        requires { Valid self }
        ensures { result ≡ record_length self }
    {
        let n = self.n;
        n * self.block_len()
    }

    // The draw of a row.
    pub fn draw_len(self) -> usize
        requires { Valid self }
        ensures { result ≡ draw_length self }
    {
        let n = self.n;
        self.f_len() + n * self.v_len()
    }

    // The draw of a triple, whose third f lacks its constant.
    pub fn triple_draw_len(self) -> usize
        requires { Valid self }
        ensures { result ≡ triple_draw_length self }
    {
        3 * self.draw_len() - 1
    }

    // All posts' rows of one draw.
    pub fn packs_len(self) -> usize
        requires { Valid self }
        ensures { result ≡ packs_length self }
    {
        let n = self.n;
        n * self.row_len()
    }

    // The masks of a product, and the list that a line is read into: two messages.
    pub fn masks_len(self) -> usize
        requires { Valid self }
        ensures { result ≡ masks_length self }
    {
        2 * self.v_len()
    }
}
