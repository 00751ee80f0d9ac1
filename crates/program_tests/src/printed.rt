//! The printed texts.

pub const SUMMARY: &str =
    "no entity\nbrushes 1\nflat 0\nplanes 6\nnodes 6\nleaves 7\nnumbered 6\nfilled 0\nportals 12\nseen 34\n";

/// The summary of a sealed room.
pub const ONE_ROOM: &str =
    "sealed\nbrushes 6\nflat 0\nplanes 12\nnodes 12\nleaves 13\nnumbered 1\nfilled 6\nportals 0\nseen 1\n";

pub const USAGE: &str =
    "usage: qmapc compile MAP OUT [--prt FILE] [--threads N] [--fast] [--hulls] [--models] [--faces] | inspect TREE QUERY.. | format MAP OUT | demo N NUMBER | upgrade TREE OUT\n";

pub const READ_FAULT: &str = "read fault\n";

pub const WRITE_FAULT: &str = "write fault\n";

pub const UNEXPECTED: &str = "map fault 3 at line 1: unexpected\n";

/// What `format` prints of an empty entity.
pub const COUNTS: &str = "entities 1\nbrushes 0\n";
