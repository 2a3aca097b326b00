ghost use Rattle.std.specs.Prelude.{◌≡◌, ◌<◌};
ghost use Rattle.obj_link.specs.Prelude.{IsImage, code_size, code_start, data_start, image_end};

use rv_isa::abi;
use std::marker::Model;

/// The address of the first instruction, and the program's entry.
pub const CODE_START: u64 = 0x10000;

/// The first address above every image: the lowest of the stack.
pub const IMAGE_END: u64 = abi::STACK_BOTTOM;

/// The size of a page in bytes: the data begins at a multiple of it.
pub const PAGE: u64 = 4096;

/// The size in bytes to which each datum is rounded up.
pub const SLOT: usize = 16;

/// A linked program: the words of its code and the bytes of its data, at addresses that their sizes fix.
#[derive(Drop)]
pub struct Image {
    code: Vec<u32>,
    data_bytes: Vec<u8>,
}

impl Model for Image {
    ghost use Rattle.obj_link.specs.Image.{Contents, IsImage};

    ghost Value = { Contents };

    ghost view = { λ i. record { code = i.code.items; data_bytes = i.data_bytes.items } };

    ghost invariant = { λ i. IsImage (record { code = i.code.items; data_bytes = i.data_bytes.items }) };
}

impl Image {
    /// The image of these instruction words, with this data after them.
    ///
    /// There must be code, the data must be a multiple of 16 bytes, and both must fit below [`IMAGE_END`].
    pub fn new(code: Vec<u32>, data_bytes: Vec<u8>) -> Image
        requires { IsImage (record { code = code.items; data_bytes = data_bytes.items }) }
        ensures { result ≡ record { code = code.items; data_bytes = data_bytes.items } }
    {
        Image { code, data_bytes }
    }

    /// The instruction words, of which the first stands at [`CODE_START`] and each next one 4 bytes above.
    pub fn code(&self) -> &[u32]
        ensures value { result.now ≡ self.now.code }
        ensures image { IsImage self.now }
    {
        self.code.as_slice()
    }

    /// The bytes of the data, of which the first stands at [`Image::data_start`]; empty where the program has none.
    pub fn data(&self) -> &[u8]
        ensures value { result.now ≡ self.now.data_bytes }
        ensures image { IsImage self.now }
    {
        self.data_bytes.as_slice()
    }

    /// The size of the code in bytes, four for each word.
    pub fn code_size(&self) -> u64
        ensures value { result ≡ code_size self.now }
        ensures image { IsImage self.now }
    {
        4 * self.code.len() as u64
    }

    /// The address of the first byte of data: the first page after the code.
    pub fn data_start(&self) -> u64
        ensures value { result ≡ data_start self.now }
        ensures image { IsImage self.now }
    {
        CODE_START + self.code_size().next_multiple_of(PAGE)
    }
}
