//! Whether a port takes memory to post.
ghost use Rattle.std.specs.Prelude.{Bool};

/// What a port's `post` needs of memory. Contracts see the constant as the member of the same name.
pub trait Memory {
    /// Whether `post` may take memory, and so may answer `NoMemory`.
    const GROWS: bool;

    ghost GROWS: { Bool };
}

/// A parcel that is posted takes memory if more of its link are in transit than ever before.
pub struct Growing;

impl Memory for Growing {
    ghost use Rattle.std.specs.Prelude.{true};

    const GROWS: bool = true;

    ghost GROWS = { true };
}

/// All memory was taken when the bank was made.
pub struct Fixed;

impl Memory for Fixed {
    ghost use Rattle.std.specs.Prelude.{false};

    const GROWS: bool = false;

    ghost GROWS = { false };
}
