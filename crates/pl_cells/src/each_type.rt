//! One expression for the buffers of all types.

// `$call` for the buffer of whatever type it is, under the name `$buffer`.
macro_rules! for_each_type {
    ($given:expr, $buffer:ident => $call:expr) => {
        match $given {
            $crate::buffer::Buffer::Boolean($buffer) => $call,
            $crate::buffer::Buffer::Int8($buffer) => $call,
            $crate::buffer::Buffer::Int16($buffer) => $call,
            $crate::buffer::Buffer::Int32($buffer) => $call,
            $crate::buffer::Buffer::Int64($buffer) => $call,
            $crate::buffer::Buffer::Int128($buffer) => $call,
            $crate::buffer::Buffer::UInt8($buffer) => $call,
            $crate::buffer::Buffer::UInt16($buffer) => $call,
            $crate::buffer::Buffer::UInt32($buffer) => $call,
            $crate::buffer::Buffer::UInt64($buffer) => $call,
            $crate::buffer::Buffer::String($buffer) => $call,
            $crate::buffer::Buffer::Categorical($buffer) => $call,
            $crate::buffer::Buffer::Enum($buffer) => $call,
            $crate::buffer::Buffer::Date($buffer) => $call,
            $crate::buffer::Buffer::Time($buffer) => $call,
            $crate::buffer::Buffer::Datetime($buffer) => $call,
            $crate::buffer::Buffer::Decimal($buffer) => $call,
        }
    };
}

pub(crate) use for_each_type;
