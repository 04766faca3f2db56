// The integer types.
ghost use Rattle.std.specs.Prelude.{◌≡◌};
ghost use Rattle.vx_dtype.specs.TypeRules.{ptype_number, ptype_numbered};
ghost use Rattle.vx_dtype.specs.Fits.{least, greatest, in_range};
ghost use Rattle.vx_dtype.specs.Texts.{ptype_text, integer_named};

/// An integer type: its width in bits, and whether it has a sign.
#[derive(Clone, Copy, PartialEq, Eq, Hash, Debug)]
pub enum PType {
    U8,
    U16,
    U32,
    U64,
    I8,
    I16,
    I32,
    I64,
}

impl PType {
    /// The least number of the type.
    pub fn least(self) -> i128
        ensures { result ≡ least self }
    {
        match self {
            PType::U8 | PType::U16 | PType::U32 | PType::U64 => 0,
            PType::I8 => -128,
            PType::I16 => -32_768,
            PType::I32 => -2_147_483_648,
            PType::I64 => -9_223_372_036_854_775_808,
        }
    }

    /// The greatest number of the type.
    pub fn greatest(self) -> i128
        ensures { result ≡ greatest self }
    {
        match self {
            PType::U8 => 255,
            PType::U16 => 65_535,
            PType::U32 => 4_294_967_295,
            PType::U64 => 18_446_744_073_709_551_615,
            PType::I8 => 127,
            PType::I16 => 32_767,
            PType::I32 => 2_147_483_647,
            PType::I64 => 9_223_372_036_854_775_807,
        }
    }

    /// Whether the number is one of the type.
    pub fn in_range(self, i: i128) -> bool
        ensures { result ≡ in_range self i }
    {
        self.least() <= i && i <= self.greatest()
    }

    /// The number of the type, from 0 for `U8` to 7 for `I64`, in hashes and in wire form.
    pub fn number(self) -> u8
        ensures { result ≡ ptype_number self }
    {
        match self {
            PType::U8 => 0,
            PType::U16 => 1,
            PType::U32 => 2,
            PType::U64 => 3,
            PType::I8 => 4,
            PType::I16 => 5,
            PType::I32 => 6,
            PType::I64 => 7,
        }
    }

    /// The type of this number. None exactly from 8 on.
    pub fn from_number(number: u8) -> Option<PType>
        ensures { result ≡ ptype_numbered number }
    {
        match number {
            0 => Some(PType::U8),
            1 => Some(PType::U16),
            2 => Some(PType::U32),
            3 => Some(PType::U64),
            4 => Some(PType::I8),
            5 => Some(PType::I16),
            6 => Some(PType::I32),
            7 => Some(PType::I64),
            _ => None,
        }
    }

    /// The name of the type, as texts have it.
    pub fn name(self) -> &'static str
        ensures { result.now ≡ ptype_text self }
    {
        match self {
            PType::U8 => "u8",
            PType::U16 => "u16",
            PType::U32 => "u32",
            PType::U64 => "u64",
            PType::I8 => "i8",
            PType::I16 => "i16",
            PType::I32 => "i32",
            PType::I64 => "i64",
        }
    }

    /// The integer type of this name. None exactly where no integer type has the name.
    #[tactic(auto, unfolding(crate::specs::Texts::integer_named))]
    pub fn from_name(name: &str) -> Option<PType>
        ensures { result ≡ integer_named name.now }
    {
        match name {
            "u8" => Some(PType::U8),
            "u16" => Some(PType::U16),
            "u32" => Some(PType::U32),
            "u64" => Some(PType::U64),
            "i8" => Some(PType::I8),
            "i16" => Some(PType::I16),
            "i32" => Some(PType::I32),
            "i64" => Some(PType::I64),
            _ => None,
        }
    }
}
