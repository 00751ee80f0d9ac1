use std::alloc::{AllocError, Global};

/// The tree file of the cube, worked out by hand from the table of the format: the 49 bytes of the header, 20 of each of six planes and
/// six nodes, 5 of each of seven leaves, and a byte of each of six rows.
pub static CUBE_FILE: [u8; 330] = [
    81, 77, 84, 82, 69, 69, 48, 50, 6, 0, 0, 0, 0, 0, 0, 0, 6, 0, 0, 0, 0, 0, 0, 0, 7, 0, 0, 0, 0,
    0, 0, 0, 6, 0, 0, 0, 0, 0, 0, 0, 1, 0, 128, 0, 0, 0, 0, 0, 0, 1, 0, 0, 0, 0, 0, 0, 0, 0, 0, 0,
    0, 0, 0, 0, 0, 0, 0, 0, 0, 1, 0, 0, 0, 0, 0, 0, 0, 0, 0, 0, 0, 64, 0, 0, 0, 0, 0, 0, 0, 0, 0,
    0, 0, 1, 0, 0, 0, 0, 0, 0, 0, 0, 0, 0, 0, 0, 0, 0, 0, 0, 0, 0, 0, 1, 0, 0, 0, 0, 0, 0, 0, 64,
    0, 0, 0, 0, 0, 0, 0, 0, 0, 0, 0, 0, 0, 0, 0, 1, 0, 0, 0, 0, 0, 0, 0, 0, 0, 0, 0, 0, 0, 0, 0, 0,
    0, 0, 0, 1, 0, 0, 0, 64, 0, 0, 0, 0, 0, 0, 0, 0, 0, 0, 0, 1, 0, 0, 0, 0, 0, 0, 0, 249, 255,
    255, 255, 255, 255, 255, 255, 1, 0, 0, 0, 255, 255, 255, 255, 255, 255, 255, 255, 2, 0, 0, 0,
    0, 0, 0, 0, 2, 0, 0, 0, 3, 0, 0, 0, 0, 0, 0, 0, 250, 255, 255, 255, 255, 255, 255, 255, 3, 0,
    0, 0, 254, 255, 255, 255, 255, 255, 255, 255, 4, 0, 0, 0, 0, 0, 0, 0, 4, 0, 0, 0, 5, 0, 0, 0,
    0, 0, 0, 0, 251, 255, 255, 255, 255, 255, 255, 255, 5, 0, 0, 0, 253, 255, 255, 255, 255, 255,
    255, 255, 252, 255, 255, 255, 255, 255, 255, 255, 255, 255, 255, 255, 0, 255, 255, 255, 255, 0,
    255, 255, 255, 255, 0, 254, 255, 255, 255, 0, 255, 255, 255, 255, 0, 255, 255, 255, 255, 0,
    255, 255, 255, 255, 0, 63, 63, 55, 59, 63, 63,
];

/// The same in version 1, which says neither the bound nor how many sections there are.
pub fn first_cube_file(alloc: Global) -> Result<Vec<u8>, AllocError> {
    let mut file = Vec::from_slice(alloc, b"QMTREE01")?;
    file.extend_from_slice(&CUBE_FILE[8..41])?;
    file.extend_from_slice(&CUBE_FILE[49..])?;
    Ok(file)
}

/// The tree file of the cube in the smaller world, which is what its first version is upgraded to.
pub fn small_cube_file(alloc: Global) -> Result<Vec<u8>, AllocError> {
    let mut file = Vec::from_slice(alloc, &CUBE_FILE[..41])?;
    file.extend_from_slice(&4096_u32.to_le_bytes())?;
    file.extend_from_slice(&CUBE_FILE[45..])?;
    Ok(file)
}
