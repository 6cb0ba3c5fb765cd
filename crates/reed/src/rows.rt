// Multiples of g(x) below its leading x^16 (EN 300 744, clause 4.3.2), as numbers of 128 bits, highest coefficient first.
ghost use Rattle.std.specs.Prelude.{◌≡◌};
ghost use Rattle.reed.specs.Code.{taps};
ghost use Rattle.reed.specs.Field.{scaled};
ghost use Rattle.reed.specs.Registers.{sixteen};

// By the higher four bits of the factor.
const HIGHER: [u128; 16] = [
    0x00000000000000000000000000000000,
    0x97d0ce1f3491fd80e264aaf66e077a97,
    0x33bd813e683fe71dd9c849f1dc0ef433,
    0xa46d4f215cae1a9d3bace307b2098ea4,
    0x66671f7cd07ed33aaf8d92ffa51cf566,
    0xf1b7d163e4ef2eba4de93809cb1b8ff1,
    0x55da9e42b84134277645db0e79120155,
    0xc20a505d8cd0c9a7942171f817157bc2,
    0xccce3ef8bdfcbb74430739e35738f7cc,
    0x5b1ef0e7896d46f4a1639315393f8d5b,
    0xff73bfc6d5c35c699acf70128b3603ff,
    0x68a371d9e152a1e978abdae4e5317968,
    0xaaa921846d82684eec8aab1cf22402aa,
    0x3d79ef9b591395ce0eee01ea9c23783d,
    0x9914a0ba05bd8f533542e2ed2e2af699,
    0x0ec46ea5312c72d3d726481b402d8c0e,
];

// By the lower four bits of the factor; the one for 1 is g(x) itself.
const LOWER: [u128; 16] = [
    0x00000000000000000000000000000000,
    0x3b0d68bd44d11e08a34129e56232243b,
    0x761ad06788bf3c105b8252d7c4644876,
    0x4d17b8dacc6e2218f8c37b32a6566c4d,
    0xec34bdce0d637820b619a4b395c890ec,
    0xd739d57349b2662815588d56f7fab4d7,
    0x9a2e6da985dc4430ed9bf66451acd89a,
    0xa1230514c10d5a384edadf81339efca1,
    0xc56867811ac6f0407132557b378d3dc5,
    0xfe650f3c5e17ee48d2737c9e55bf19fe,
    0xb372b7e69279cc502ab007acf3e975b3,
    0x887fdf5bd6a8d25889f12e4991db5188,
    0x295cda4f17a58860c72bf1c8a245ad29,
    0x1251b2f253749668646ad82dc0778912,
    0x5f460a289f1ab4709ca9a31f6621e55f,
    0x644b6295dbcbaa783fe88afa0413c164,
];

// The factor times g(x), below x^16.
pub(crate) fn row(factor: u8) -> u128
    ensures { sixteen result ≡ scaled factor taps }
{
    HIGHER[(factor / 16) as usize] ^ LOWER[(factor % 16) as usize]
}
