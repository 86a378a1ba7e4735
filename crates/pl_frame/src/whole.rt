//! Whole numbers of each width that values are kept in.
ghost use Rattle.std.specs.Prelude.{◌≡◌};
ghost use Rattle.pl_frame.specs.Frame.{Scalar, Number};

// A whole number of a width.
pub(crate) trait Whole: Copy + Default {
    // What it is as a value.
    ghost scalar: { Self → Scalar };

    // The number in 128 bits.
    fn wide(self) -> i128
        ensures { Number result ≡ scalar self };
}

// One that fits 64 bits.
pub(crate) trait Narrow: Whole {
    // The number in 64 bits.
    fn narrow(self) -> i64
        ensures { Number result ≡ Self.scalar self };
}

impl Whole for i8 {
    ghost scalar = { Number };

    #[inline]
    fn wide(self) -> i128 {
        i128::from(self)
    }
}

impl Narrow for i8 {
    #[inline]
    fn narrow(self) -> i64 {
        i64::from(self)
    }
}

impl Whole for i16 {
    ghost scalar = { Number };

    #[inline]
    fn wide(self) -> i128 {
        i128::from(self)
    }
}

impl Narrow for i16 {
    #[inline]
    fn narrow(self) -> i64 {
        i64::from(self)
    }
}

impl Whole for i32 {
    ghost scalar = { Number };

    #[inline]
    fn wide(self) -> i128 {
        i128::from(self)
    }
}

impl Narrow for i32 {
    #[inline]
    fn narrow(self) -> i64 {
        i64::from(self)
    }
}

impl Whole for i64 {
    ghost scalar = { Number };

    #[inline]
    fn wide(self) -> i128 {
        i128::from(self)
    }
}

impl Narrow for i64 {
    #[inline]
    fn narrow(self) -> i64 {
        self
    }
}

impl Whole for i128 {
    ghost scalar = { Number };

    #[inline]
    fn wide(self) -> i128 {
        self
    }
}
