/// The text of a cube of 64 units.
pub const CUBE_TEXT: &str = "{
{
( 0 0 0 ) ( 0 1 0 ) ( 0 0 1 ) stone 0 0 0 1 1
( 64 0 0 ) ( 64 0 1 ) ( 64 1 0 ) stone 0 0 0 1 1
( 0 0 0 ) ( 0 0 1 ) ( 1 0 0 ) stone 0 0 0 1 1
( 0 64 0 ) ( 1 64 0 ) ( 0 64 1 ) stone 0 0 0 1 1
( 0 0 0 ) ( 1 0 0 ) ( 0 1 0 ) stone 0 0 0 1 1
( 0 0 64 ) ( 0 1 64 ) ( 1 0 64 ) stone 0 0 0 1 1
}
}
";
