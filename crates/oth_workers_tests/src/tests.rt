//! Boards whose items several workers search, and what a gate sees of it.

mod announcing;
mod drawing;
mod fixtures;
mod meeting;
mod noting;
mod telling;
mod together;
mod view;
mod ways;

const A: [u64; 2] = [8, 0xffff_ffff_ffff_ff74];

// Boards of games, of 14 empty squares.
const BOARDS: [[u64; 2]; 3] = [
    [0x00fc_98c0_a010_0804, 0x0402_673b_5fef_75b8],
    [0x8080_b1df_a743_2740, 0x4f67_4620_18bc_4082],
    [0x450b_3b61_676b_5000, 0x18a4_c49c_9884_a2f0],
];

// Boards of games, of 13, 12 and 10 empty squares: the opponent must pass after a move of the first two, and the other
// side of the first one at once; the mover must pass after a reply on the third.
const WITH_PASSES: [[u64; 2]; 3] = [
    [0x0080_00b0_b0f0_f080, 0x407e_784b_4f0f_0f7f],
    [0x8080_8101_213d_073f, 0x4262_7afe_dec2_f800],
    [0x8276_2a0f_2f51_3f00, 0x1c09_5070_10ae_c0ff],
];
