//! What a row asks for, and the words that name it.
ghost use Rattle.std.specs.Prelude.{◌≡◌};
ghost use Rattle.atoi_tool.specs.Request.{engine_of, call_of, integer_of, flags_of, int_type_of, is_known};

/// Which library parses.
#[derive(Clone, Copy)]
pub enum Engine {
    /// `w`: `atoi_simd`.
    Words,
    /// `l`: `atoi_simd::lanes`.
    Lanes,
}

/// Which sign the number has.
#[derive(Clone, Copy)]
pub enum Sign {
    /// The sign with which the text may start.
    InText,
    /// The text has no sign, and the number is not negative.
    Positive,
    /// The text has no sign, and the number is negative or zero.
    Negative,
}

/// How much of the text is parsed.
#[derive(Clone, Copy)]
pub enum Extent {
    /// All of it.
    Whole,
    /// The number at its start.
    Prefix,
}

/// Which type the call returns.
#[derive(Clone, Copy)]
pub enum Integer {
    U8,
    I8,
    U16,
    I16,
    U32,
    I32,
    U64,
    I64,
    U128,
    I128,
    Usize,
    Isize,
}

impl Integer {
    pub fn is_signed(self) -> bool
        ensures { result ≡ (int_type_of self).signed }
    {
        matches!(
            self,
            Integer::I8
                | Integer::I16
                | Integer::I32
                | Integer::I64
                | Integer::I128
                | Integer::Isize
        )
    }
}

/// Calls `$unsigned` or `$signed` with the type that `$integer` names.
macro_rules! by_type {
    ($integer:expr, $unsigned:ident, $signed:ident, <$($more:ident),*>, $arguments:tt) => {
        match $integer {
            Integer::U8 => $unsigned::<u8 $(, $more)*> $arguments,
            Integer::I8 => $signed::<i8 $(, $more)*> $arguments,
            Integer::U16 => $unsigned::<u16 $(, $more)*> $arguments,
            Integer::I16 => $signed::<i16 $(, $more)*> $arguments,
            Integer::U32 => $unsigned::<u32 $(, $more)*> $arguments,
            Integer::I32 => $signed::<i32 $(, $more)*> $arguments,
            Integer::U64 => $unsigned::<u64 $(, $more)*> $arguments,
            Integer::I64 => $signed::<i64 $(, $more)*> $arguments,
            Integer::U128 => $unsigned::<u128 $(, $more)*> $arguments,
            Integer::I128 => $signed::<i128 $(, $more)*> $arguments,
            Integer::Usize => $unsigned::<usize $(, $more)*> $arguments,
            Integer::Isize => $signed::<isize $(, $more)*> $arguments,
        }
    };
}

pub(crate) use by_type;

/// What a call skips at the start of its text.
#[derive(Clone, Copy)]
pub struct Flags {
    /// Leading zeros are skipped.
    pub zeroes: bool,
    /// A plus sign is accepted.
    pub plus: bool,
}

/// Returns the engine that a word names.
pub fn engine_of(word: &[u8]) -> Option<Engine>
    ensures { result ≡ engine_of word.now }
{
    match word {
        b"w" => Some(Engine::Words),
        b"l" => Some(Engine::Lanes),
        _ => None,
    }
}

/// Returns the sign and the extent of the call that a word names.
pub fn call_of(word: &[u8]) -> Option<(Sign, Extent)>
    ensures { result ≡ call_of word.now }
{
    match word {
        b"parse" => Some((Sign::InText, Extent::Whole)),
        b"pos" => Some((Sign::Positive, Extent::Whole)),
        b"neg" => Some((Sign::Negative, Extent::Whole)),
        b"prefix" => Some((Sign::InText, Extent::Prefix)),
        b"prefix_pos" => Some((Sign::Positive, Extent::Prefix)),
        b"prefix_neg" => Some((Sign::Negative, Extent::Prefix)),
        _ => None,
    }
}

/// Returns the integer type that a word names.
pub fn integer_of(word: &[u8]) -> Option<Integer>
    ensures { result ≡ integer_of word.now }
{
    match word {
        b"u8" => Some(Integer::U8),
        b"i8" => Some(Integer::I8),
        b"u16" => Some(Integer::U16),
        b"i16" => Some(Integer::I16),
        b"u32" => Some(Integer::U32),
        b"i32" => Some(Integer::I32),
        b"u64" => Some(Integer::U64),
        b"i64" => Some(Integer::I64),
        b"u128" => Some(Integer::U128),
        b"i128" => Some(Integer::I128),
        b"usize" => Some(Integer::Usize),
        b"isize" => Some(Integer::Isize),
        _ => None,
    }
}

/// Returns the flags that a word names: `z` or `-` for zeros, then `p` or `-` for a plus.
pub fn flags_of(word: &[u8]) -> Option<Flags>
    ensures { result ≡ flags_of word.now }
{
    let (zeroes, plus) = match word {
        b"--" => (false, false),
        b"z-" => (true, false),
        b"-p" => (false, true),
        b"zp" => (true, true),
        _ => return None,
    };
    Some(Flags { zeroes, plus })
}

/// What a row about one number asks for, without its text.
#[derive(Clone, Copy)]
pub struct Request {
    pub engine: Engine,
    /// The sign, which with `extent` names the function.
    pub sign: Sign,
    pub extent: Extent,
    pub integer: Integer,
    pub flags: Flags,
}

impl Request {
    /// Returns whether such a row has an answer. It has no answer if a plus is allowed where the
    /// text has no sign, or if the number is negative and the type is unsigned.
    pub fn is_known(&self) -> bool
        ensures { result ≡ is_known self.now }
    {
        match self.sign {
            Sign::InText => true,
            Sign::Positive => !self.flags.plus,
            Sign::Negative => !self.flags.plus && self.integer.is_signed(),
        }
    }
}

/// What a row asks for, without its text.
#[derive(Clone, Copy)]
pub enum Query {
    /// One number.
    Number(Request),
    /// All numbers of a column.
    Column {
        integer: Integer,
        /// The byte between two fields: any byte except a digit, `+` and `-`.
        separator: u8,
    },
}
