// The AOSA tables 14G and 14H as 004 prints them.

// A row of Table 14H: the largest average that it serves, and the tolerated difference.
#[derive(Clone, Copy)]
pub struct Row {
    pub top: u16,
    pub tolerated: u16,
}

// Table 14H.
pub const TABLE_14H: [Row; 58] = [
    Row {
        top: 3,
        tolerated: 5,
    },
    Row {
        top: 4,
        tolerated: 6,
    },
    Row {
        top: 6,
        tolerated: 7,
    },
    Row {
        top: 8,
        tolerated: 8,
    },
    Row {
        top: 10,
        tolerated: 9,
    },
    Row {
        top: 13,
        tolerated: 10,
    },
    Row {
        top: 15,
        tolerated: 11,
    },
    Row {
        top: 18,
        tolerated: 12,
    },
    Row {
        top: 22,
        tolerated: 13,
    },
    Row {
        top: 25,
        tolerated: 14,
    },
    Row {
        top: 29,
        tolerated: 15,
    },
    Row {
        top: 33,
        tolerated: 16,
    },
    Row {
        top: 37,
        tolerated: 17,
    },
    Row {
        top: 42,
        tolerated: 18,
    },
    Row {
        top: 47,
        tolerated: 19,
    },
    Row {
        top: 52,
        tolerated: 20,
    },
    Row {
        top: 57,
        tolerated: 21,
    },
    Row {
        top: 63,
        tolerated: 22,
    },
    Row {
        top: 69,
        tolerated: 23,
    },
    Row {
        top: 75,
        tolerated: 24,
    },
    Row {
        top: 81,
        tolerated: 25,
    },
    Row {
        top: 88,
        tolerated: 26,
    },
    Row {
        top: 95,
        tolerated: 27,
    },
    Row {
        top: 102,
        tolerated: 28,
    },
    Row {
        top: 110,
        tolerated: 29,
    },
    Row {
        top: 117,
        tolerated: 30,
    },
    Row {
        top: 125,
        tolerated: 31,
    },
    Row {
        top: 133,
        tolerated: 32,
    },
    Row {
        top: 142,
        tolerated: 33,
    },
    Row {
        top: 151,
        tolerated: 34,
    },
    Row {
        top: 160,
        tolerated: 35,
    },
    Row {
        top: 169,
        tolerated: 36,
    },
    Row {
        top: 178,
        tolerated: 37,
    },
    Row {
        top: 188,
        tolerated: 38,
    },
    Row {
        top: 198,
        tolerated: 39,
    },
    Row {
        top: 209,
        tolerated: 40,
    },
    Row {
        top: 219,
        tolerated: 41,
    },
    Row {
        top: 230,
        tolerated: 42,
    },
    Row {
        top: 241,
        tolerated: 43,
    },
    Row {
        top: 252,
        tolerated: 44,
    },
    Row {
        top: 264,
        tolerated: 45,
    },
    Row {
        top: 276,
        tolerated: 46,
    },
    Row {
        top: 288,
        tolerated: 47,
    },
    Row {
        top: 300,
        tolerated: 48,
    },
    Row {
        top: 313,
        tolerated: 49,
    },
    Row {
        top: 326,
        tolerated: 50,
    },
    Row {
        top: 339,
        tolerated: 51,
    },
    Row {
        top: 353,
        tolerated: 52,
    },
    Row {
        top: 366,
        tolerated: 53,
    },
    Row {
        top: 380,
        tolerated: 54,
    },
    Row {
        top: 394,
        tolerated: 55,
    },
    Row {
        top: 409,
        tolerated: 56,
    },
    Row {
        top: 424,
        tolerated: 57,
    },
    Row {
        top: 439,
        tolerated: 58,
    },
    Row {
        top: 454,
        tolerated: 59,
    },
    Row {
        top: 469,
        tolerated: 60,
    },
    Row {
        top: 485,
        tolerated: 61,
    },
    Row {
        top: 501,
        tolerated: 62,
    },
];

// Table 14G, column B: the most seeds found that are within tolerance, for each label from 0 on.
pub const TABLE_14G: [u8; 101] = [
    2, 2, 4, 5, 7, 8, 9, 11, 12, 13, 14, 16, 17, 18, 19, 21, 22, 23, 24, 25, 27, 28, 29, 30, 31,
    32, 34, 35, 36, 37, 38, 39, 41, 42, 43, 44, 45, 46, 47, 49, 50, 51, 52, 53, 54, 55, 56, 58, 59,
    60, 61, 62, 63, 64, 65, 67, 68, 69, 70, 71, 72, 73, 74, 75, 76, 78, 79, 80, 81, 82, 83, 84, 85,
    86, 87, 89, 90, 91, 92, 93, 94, 95, 96, 97, 98, 99, 101, 102, 103, 104, 105, 106, 107, 108,
    109, 110, 111, 112, 114, 115, 116,
];
