// The integers of one type, in the type's own width.
ghost use Rattle.std.specs.Prelude.{◌≡◌, ℤ, pos, ◌+ℤ◌, ◌-ℤ◌, true};
ghost use Rattle.std.specs.Option.{option_map};
ghost use Rattle.std.specs.Ordering.{int_cmp, is_eq, is_lt};
ghost use Rattle.vx_dtype.specs.declared.PType.{PType};
ghost use Rattle.vx_dtype.specs.declared.PType.TheVariants.{U8, U16, U32, U64, I8, I16, I32, I64};
ghost use Rattle.vx_dtype.specs.Fits.{in_range};
ghost use Rattle.vx_numbers.specs.Numbers.{within};

use vx_dtype::PType;

/// An integer of one type, in the type's own width.
pub(crate) trait Width: Copy {
    ghost ptype: { PType };

    ghost value: { Self → ℤ };

    /// The type.
    fn own_type() -> PType
        ensures { result ≡ ptype };

    /// The number 0.
    fn zero() -> Self
        ensures { value result ≡ pos 0 };

    /// A number of the type.
    fn of_number(number: i128) -> Self
        requires { in_range ptype number ≡ true }
        ensures { value result ≡ number };

    /// The number.
    fn number(self) -> i128
        ensures { result ≡ value self };

    /// Whether two numbers are one.
    fn is(self, other: Self) -> bool
        ensures { result ≡ is_eq (int_cmp (value self) (value other)) };

    /// Whether the number is the lesser.
    fn is_below(self, other: Self) -> bool
        ensures { result ≡ is_lt (int_cmp (value self) (value other)) };

    /// The sum, None exactly where it leaves the type.
    fn plus(self, other: Self) -> Option<Self>
        ensures { option_map value result ≡ within ptype (value self +ℤ value other) };

    /// The difference, None exactly where it leaves the type.
    fn minus(self, other: Self) -> Option<Self>
        ensures { option_map value result ≡ within ptype (value self -ℤ value other) };
}

impl Width for u8 {
    ghost ptype = { U8 };

    ghost value = { pos };

    #[inline(always)]
    fn own_type() -> PType {
        PType::U8
    }

    #[inline(always)]
    fn zero() -> u8 {
        0
    }

    #[inline(always)]
    fn of_number(number: i128) -> u8 {
        number as u8
    }

    #[inline(always)]
    fn number(self) -> i128 {
        i128::from(self)
    }

    #[inline(always)]
    fn is(self, other: u8) -> bool {
        self == other
    }

    #[inline(always)]
    fn is_below(self, other: u8) -> bool {
        self < other
    }

    #[inline(always)]
    fn plus(self, other: u8) -> Option<u8> {
        self.checked_add(other)
    }

    #[inline(always)]
    fn minus(self, other: u8) -> Option<u8> {
        self.checked_sub(other)
    }
}

impl Width for u16 {
    ghost ptype = { U16 };

    ghost value = { pos };

    #[inline(always)]
    fn own_type() -> PType {
        PType::U16
    }

    #[inline(always)]
    fn zero() -> u16 {
        0
    }

    #[inline(always)]
    fn of_number(number: i128) -> u16 {
        number as u16
    }

    #[inline(always)]
    fn number(self) -> i128 {
        i128::from(self)
    }

    #[inline(always)]
    fn is(self, other: u16) -> bool {
        self == other
    }

    #[inline(always)]
    fn is_below(self, other: u16) -> bool {
        self < other
    }

    #[inline(always)]
    fn plus(self, other: u16) -> Option<u16> {
        self.checked_add(other)
    }

    #[inline(always)]
    fn minus(self, other: u16) -> Option<u16> {
        self.checked_sub(other)
    }
}

impl Width for u32 {
    ghost ptype = { U32 };

    ghost value = { pos };

    #[inline(always)]
    fn own_type() -> PType {
        PType::U32
    }

    #[inline(always)]
    fn zero() -> u32 {
        0
    }

    #[inline(always)]
    fn of_number(number: i128) -> u32 {
        number as u32
    }

    #[inline(always)]
    fn number(self) -> i128 {
        i128::from(self)
    }

    #[inline(always)]
    fn is(self, other: u32) -> bool {
        self == other
    }

    #[inline(always)]
    fn is_below(self, other: u32) -> bool {
        self < other
    }

    #[inline(always)]
    fn plus(self, other: u32) -> Option<u32> {
        self.checked_add(other)
    }

    #[inline(always)]
    fn minus(self, other: u32) -> Option<u32> {
        self.checked_sub(other)
    }
}

impl Width for u64 {
    ghost ptype = { U64 };

    ghost value = { pos };

    #[inline(always)]
    fn own_type() -> PType {
        PType::U64
    }

    #[inline(always)]
    fn zero() -> u64 {
        0
    }

    #[inline(always)]
    fn of_number(number: i128) -> u64 {
        number as u64
    }

    #[inline(always)]
    fn number(self) -> i128 {
        i128::from(self)
    }

    #[inline(always)]
    fn is(self, other: u64) -> bool {
        self == other
    }

    #[inline(always)]
    fn is_below(self, other: u64) -> bool {
        self < other
    }

    #[inline(always)]
    fn plus(self, other: u64) -> Option<u64> {
        self.checked_add(other)
    }

    #[inline(always)]
    fn minus(self, other: u64) -> Option<u64> {
        self.checked_sub(other)
    }
}

impl Width for i8 {
    ghost ptype = { I8 };

    ghost value = { λ i. i };

    #[inline(always)]
    fn own_type() -> PType {
        PType::I8
    }

    #[inline(always)]
    fn zero() -> i8 {
        0
    }

    #[inline(always)]
    fn of_number(number: i128) -> i8 {
        number as i8
    }

    #[inline(always)]
    fn number(self) -> i128 {
        i128::from(self)
    }

    #[inline(always)]
    fn is(self, other: i8) -> bool {
        self == other
    }

    #[inline(always)]
    fn is_below(self, other: i8) -> bool {
        self < other
    }

    #[inline(always)]
    fn plus(self, other: i8) -> Option<i8> {
        self.checked_add(other)
    }

    #[inline(always)]
    fn minus(self, other: i8) -> Option<i8> {
        self.checked_sub(other)
    }
}

impl Width for i16 {
    ghost ptype = { I16 };

    ghost value = { λ i. i };

    #[inline(always)]
    fn own_type() -> PType {
        PType::I16
    }

    #[inline(always)]
    fn zero() -> i16 {
        0
    }

    #[inline(always)]
    fn of_number(number: i128) -> i16 {
        number as i16
    }

    #[inline(always)]
    fn number(self) -> i128 {
        i128::from(self)
    }

    #[inline(always)]
    fn is(self, other: i16) -> bool {
        self == other
    }

    #[inline(always)]
    fn is_below(self, other: i16) -> bool {
        self < other
    }

    #[inline(always)]
    fn plus(self, other: i16) -> Option<i16> {
        self.checked_add(other)
    }

    #[inline(always)]
    fn minus(self, other: i16) -> Option<i16> {
        self.checked_sub(other)
    }
}

impl Width for i32 {
    ghost ptype = { I32 };

    ghost value = { λ i. i };

    #[inline(always)]
    fn own_type() -> PType {
        PType::I32
    }

    #[inline(always)]
    fn zero() -> i32 {
        0
    }

    #[inline(always)]
    fn of_number(number: i128) -> i32 {
        number as i32
    }

    #[inline(always)]
    fn number(self) -> i128 {
        i128::from(self)
    }

    #[inline(always)]
    fn is(self, other: i32) -> bool {
        self == other
    }

    #[inline(always)]
    fn is_below(self, other: i32) -> bool {
        self < other
    }

    #[inline(always)]
    fn plus(self, other: i32) -> Option<i32> {
        self.checked_add(other)
    }

    #[inline(always)]
    fn minus(self, other: i32) -> Option<i32> {
        self.checked_sub(other)
    }
}

impl Width for i64 {
    ghost ptype = { I64 };

    ghost value = { λ i. i };

    #[inline(always)]
    fn own_type() -> PType {
        PType::I64
    }

    #[inline(always)]
    fn zero() -> i64 {
        0
    }

    #[inline(always)]
    fn of_number(number: i128) -> i64 {
        number as i64
    }

    #[inline(always)]
    fn number(self) -> i128 {
        i128::from(self)
    }

    #[inline(always)]
    fn is(self, other: i64) -> bool {
        self == other
    }

    #[inline(always)]
    fn is_below(self, other: i64) -> bool {
        self < other
    }

    #[inline(always)]
    fn plus(self, other: i64) -> Option<i64> {
        self.checked_add(other)
    }

    #[inline(always)]
    fn minus(self, other: i64) -> Option<i64> {
        self.checked_sub(other)
    }
}
