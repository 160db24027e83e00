// Size classes: lists are stored in blocks whose sizes are powers of two, from 4 words on.
#![tactic(auto)]

ghost use Rattle.sizes.specs.Class.{ClassOf, SizeOf};

// The class type (paper 01's form): its limits as constants, the class of a length and the size of a class as functions. A class is a number, as C has it.
#[derive(Clone, Copy)]
pub struct SizeClass;

impl SizeClass {
    // The words in a block of class 0.
    pub const SMALLEST: usize = 4;

    // How many classes there are, and so how many heads a pool has.
    pub const COUNT: usize = 15;

    // The longest length that has a class below the count.
    pub const LONGEST: u32 = 65535;

    // Returns the class of a list of n elements, of any 32-bit length: the least whose block has room for the length word and the elements.
    pub fn for_length(n: u32) -> u32
        ensures { ClassOf n result }
    {
        30 - u32::leading_zeros(n | 3)
    }

    // Returns how many words a block of the class c has; 0, and no `None`, for a class whose size no 64-bit word holds, as C has it.
    pub fn size(c: u32) -> usize
        ensures { SizeOf c result }
    {
        if c >= 62 {
            return 0;
        }
        Self::SMALLEST << c
    }
}
