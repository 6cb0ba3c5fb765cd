// Written by tools/vectors.py: digests of the cells and of the TPS blocks of each sample, from an implementation that shares no code with the crates.
#[derive(Clone, Copy)]
pub struct Expected {
    pub cells: u64,
    pub tps: u64,
}

pub const EXPECTED: [Expected; 30] = [
    Expected {
        cells: 6484279730966133284,
        tps: 16966936666573680525,
    },
    Expected {
        cells: 17019092793084283172,
        tps: 8898214450988683473,
    },
    Expected {
        cells: 1980794781213179582,
        tps: 11445705662616413541,
    },
    Expected {
        cells: 9805704305852561277,
        tps: 13918544054950546269,
    },
    Expected {
        cells: 3831063047468801066,
        tps: 9090929163351373037,
    },
    Expected {
        cells: 9408830665174098361,
        tps: 18012529129000151245,
    },
    Expected {
        cells: 9342737233707253746,
        tps: 494139478186220861,
    },
    Expected {
        cells: 5726937843552722948,
        tps: 14447924675786688489,
    },
    Expected {
        cells: 11030643743845410967,
        tps: 8771092406506787165,
    },
    Expected {
        cells: 16634950083506760600,
        tps: 18345921513918209561,
    },
    Expected {
        cells: 15200397889093272629,
        tps: 9757669589080816517,
    },
    Expected {
        cells: 10342558271843773641,
        tps: 2675425104531834473,
    },
    Expected {
        cells: 15922163286295315541,
        tps: 9004895282663731765,
    },
    Expected {
        cells: 4224091481108089123,
        tps: 17054035210154591557,
    },
    Expected {
        cells: 17790356593417982197,
        tps: 14963255756789745733,
    },
    Expected {
        cells: 5798955732675036595,
        tps: 131001945179401185,
    },
    Expected {
        cells: 11320999544709063764,
        tps: 15919754801791818365,
    },
    Expected {
        cells: 5185721986977055277,
        tps: 573039545159087501,
    },
    Expected {
        cells: 8730928550811441182,
        tps: 17031559495216908061,
    },
    Expected {
        cells: 2371374403065015844,
        tps: 5594633004951648489,
    },
    Expected {
        cells: 360172055659292205,
        tps: 9181462737214376533,
    },
    Expected {
        cells: 13210585334118049928,
        tps: 13021042120175247909,
    },
    Expected {
        cells: 6139824579713013933,
        tps: 7758236044116755797,
    },
    Expected {
        cells: 12337218689694153430,
        tps: 6626343430889179861,
    },
    Expected {
        cells: 3352369312677232596,
        tps: 15004952835289396133,
    },
    Expected {
        cells: 4711261106690634985,
        tps: 5085672526479562065,
    },
    Expected {
        cells: 2775360578285287533,
        tps: 14777485313012153165,
    },
    Expected {
        cells: 9987184626856902830,
        tps: 562587487923012205,
    },
    Expected {
        cells: 9567179516773882988,
        tps: 11134130306836975941,
    },
    Expected {
        cells: 6977232078757770511,
        tps: 17829622923291798857,
    },
];
