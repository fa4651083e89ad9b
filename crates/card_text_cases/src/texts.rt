// The text of code E, plainly and with what is passed over.
pub(crate) const OF_E: [&str; 4] = [
    "length 5\ngroup 11000\ngroup 01100\ntransform 00110\ncoset 10001\n",
    "length 5\ngroup 11000\ngroup 01100\ntransform 00110\ncoset 10001",
    "length 05\r\ngroup 11000\r\ngroup 01100\r\ntransform 00110\r\ncoset 10001\r\n",
    "# code E\n\nlength 5\n\n# the group\ngroup 11000\ngroup 01100\n\ntransform 00110\ncoset 10001\n#",
];

// Texts with something wrong.
pub(crate) const REFUSED: [&str; 20] = [
    "",
    "# no card",
    "group 11000\n",
    "length 5\nlength 5\n",
    "length\n",
    "length five\n",
    "length 128\n",
    "length 0\n",
    "length 65\n",
    "size 5\n",
    " length 5\n",
    "length 5\ngroup 1100\n",
    "length 5\n\ncoset 110001\n",
    "length 5\ngroup 11020\n",
    "length 5\ntransform 00110\ngroup 11000\n",
    "length 5\ncoset 00110\ntransform 11000\n",
    "length 5\ngroup 00000\n",
    "length 5\ngroup 11000\ngroup 01100\ngroup 10100\n",
    "length 5\ngroup 11000\ngroup 01100\ngroup 10010\n",
    "length 9\ncoset 100000000\ncoset 010000000\ncoset 001000000\ncoset 000100000\ncoset 000010000\ncoset 000001000\ncoset 000000100\ncoset 000000010\ncoset 000000001\n",
];
