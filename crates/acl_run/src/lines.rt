/// The line that says what failed outside the program of this name. There is none for standard error itself.
#[macro_export]
macro_rules! outside_line {
    ($name:literal, $which:expr) => {
        match $which {
            $crate::Which::List => concat!($name, ": list failed\n"),
            $crate::Which::Read => concat!($name, ": read failed\n"),
            $crate::Which::Write => concat!($name, ": write failed\n"),
            $crate::Which::Out => concat!($name, ": output failed\n"),
            $crate::Which::Err => "",
            $crate::Which::Clock => concat!($name, ": clock failed\n"),
        }
    };
}
