//! Linear programs, as a trait and as data.
ghost use Rattle.std.specs.Prelude.{◌≡◌, ◌*◌, ◌<◌, ◌≤◌, pos, ◌≤ℤ◌, All, vec_len};
ghost use Rattle.std.specs.Int.RustNames.{unsigned_abs};
ghost use Rattle.rp_farkas.specs.LinearProgram.{LinearProgram};
ghost use Rattle.rp_farkas.specs.Limits.{IsWithinLimits, largest_entry, most_columns, most_rows};
ghost use Rattle.rp_farkas.specs.Listed.{listed_program};

/// A linear program: greatest c·y over A y ≤ b and y ≥ 0, with b ≥ 0, within the limits of `IsWithinLimits`.
pub trait Lp {
    ghost program: { Self → LinearProgram };

    /// The number of rows of A.
    fn rows(&self) -> u32
        ensures { result ≡ (program self.now).rows };

    /// The number of columns of A.
    fn cols(&self) -> u32
        ensures { result ≡ (program self.now).cols };

    /// The entry of A in row i and column j.
    fn a(&self, i: u32, j: u32) -> i64
        requires row { i < (program self.now).rows }
        requires column { j < (program self.now).cols }
        ensures { result ≡ (program self.now).a i j };

    /// The right side of row i.
    fn b(&self, i: u32) -> i64
        requires { i < (program self.now).rows }
        ensures { result ≡ (program self.now).b i };

    /// The objective's entry at column j.
    fn c(&self, j: u32) -> i64
        requires { j < (program self.now).cols }
        ensures { result ≡ (program self.now).c j };

    ghost within_limits: { (p : Self) → IsWithinLimits (program p) };
}

/// A program whose entries are kept in lists.
#[derive(Debug, Drop)]
pub struct Program {
    rows: u32,
    cols: u32,
    a: Vec<i64>,
    b: Vec<i64>,
    c: Vec<i64>,
    ghost a_length: { vec_len a ≡ rows * cols },
    ghost b_length: { vec_len b ≡ rows },
    ghost c_length: { vec_len c ≡ cols },
    ghost within: { IsWithinLimits (listed_program rows cols a.items b.items c.items) },
}

impl Program {
    /// The program of these lists, `a` by row and then by column; no memory is taken.
    pub fn make(rows: u32, cols: u32, a: Vec<i64>, b: Vec<i64>, c: Vec<i64>) -> Program
        requires rows_at_most { rows ≤ most_rows }
        requires cols_at_most { cols ≤ most_columns }
        requires a_length { vec_len a ≡ rows * cols }
        requires b_length { vec_len b ≡ rows }
        requires c_length { vec_len c ≡ cols }
        requires a_bounded { All (λ z. unsigned_abs z ≤ largest_entry) a.items }
        requires b_bounded { All (λ z. unsigned_abs z ≤ largest_entry) b.items }
        requires c_bounded { All (λ z. unsigned_abs z ≤ largest_entry) c.items }
        requires b_not_negative { All (λ z. pos 0 ≤ℤ z) b.items }
        ensures { ⟦<Program as Lp>⟧.program result
            ≡ listed_program rows cols a.items b.items c.items }
    {
        Program {
            rows,
            cols,
            a,
            b,
            c,
        }
    }
}

impl Lp for Program {
    ghost program = { λ p. listed_program p.rows p.cols p.a.items p.b.items p.c.items };

    ghost within_limits = { λ p. p.within };

    fn rows(&self) -> u32 {
        self.rows
    }

    fn cols(&self) -> u32 {
        self.cols
    }

    fn a(&self, i: u32, j: u32) -> i64 {
        self.a[i as usize * self.cols as usize + j as usize]
    }

    fn b(&self, i: u32) -> i64 {
        self.b[i as usize]
    }

    fn c(&self, j: u32) -> i64 {
        self.c[j as usize]
    }
}
