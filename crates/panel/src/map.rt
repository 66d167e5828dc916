// Where the keys and LEDs stand, and the encoders' contacts. The board's panel is six rows of eleven columns.
ghost use Rattle.std.specs.Prelude.{◌≡◌, ◌+◌, ◌*◌, ◌<◌};
ghost use Rattle.panel.specs.Map.{fm1_map, id_at};

// The id at row * 11 + column, of which those above 40 are no key; and for each encoder its contact A, then B, as column and row. A contact
// outside the matrix closes nothing.
#[derive(Clone, Copy, Debug, PartialEq, Eq)]
pub struct Map {
    pub ids: [u8; 66],
    pub contacts: [u8; 28],
}

// The FM-1's (hal/fm1_input.h FM1_KEYMAP, FM1_ENC). Ids 0 to 13 are buttons, 14 to 40 the note keys F3 to G5.
const KEYMAP: [u8; 66] = [
    255, 255, 255, 255, 255, 255, 255, 255, 255, 255, 255, 5, 11, 4, 10, 3, 9, 2, 8, 255, 255, 255,
    34, 35, 36, 37, 38, 40, 39, 13, 7, 6, 12, 23, 24, 25, 26, 27, 28, 29, 30, 31, 32, 33, 0, 1, 15,
    14, 17, 16, 19, 18, 20, 21, 22, 255, 255, 255, 255, 255, 255, 255, 255, 255, 255, 255,
];

const ENC: [u8; 28] = [
    0, 0, 1, 0, 2, 0, 3, 0, 8, 1, 9, 1, 8, 0, 9, 0, 6, 0, 7, 0, 4, 0, 5, 0, 0, 5, 1, 5,
];

pub fn fm1() -> Map
    ensures { result ≡ fm1_map }
{
    Map {
        ids: KEYMAP,
        contacts: ENC,
    }
}

impl Map {
    pub fn id(self, row: usize, col: usize) -> u8
        requires { (row < 6) × (col < 11) }
        ensures { result ≡ id_at self row col }
    {
        self.ids[row * 11 + col]
    }
}
