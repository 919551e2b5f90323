//! A disk that answers anything, or lies: one type, so that the executor over it is compiled once.
ghost use Rattle.disk_model.specs.WildDisk.{wild_view};

use disk_model::wild::WildDisk;
use disk_model::{Disk, DiskFault};
use ocf_types::Part;

/// A disk that promises nothing: it answers anything, does not keep what is written, and fails one call in eight. Where it has bytes it
/// mostly reads them in part A and none in part B.
#[derive(Drop)]
pub struct Liar {
    wild: WildDisk,
    bytes: Option<Vec<u8>>,
}

impl Liar {
    /// A disk that answers anything, as only the seed says.
    pub fn wild(seed: u64) -> Liar {
        Liar {
            wild: WildDisk::new(seed),
            bytes: None,
        }
    }

    /// A disk that lies about these bytes, as only the seed says.
    pub fn new(seed: u64, bytes: Vec<u8>) -> Liar {
        Liar {
            wild: WildDisk::new(seed),
            bytes: Some(bytes),
        }
    }
}

impl Disk for Liar {
    ghost view = { λ d. wild_view d.wild };

    ghost lawful = { λ _ honest. absurd honest };

    fn len(&mut self, part: Part) -> Result<u64, DiskFault> {
        let any = self.wild.len(part)?;
        Ok(match (&self.bytes, part) {
            (Some(bytes), Part::A) if any % 32 != 1 => any.min(bytes.len() as u64),
            (Some(_), Part::B) if any % 32 != 1 => 0,
            _ => any,
        })
    }

    fn read_at(&mut self, part: Part, at: u64, buf: &mut [u8]) -> Result<(), DiskFault> {
        self.wild.read_at(part, at, buf)?;
        match &self.bytes {
            Some(bytes) if buf.first() != Some(&1) => {
                for (byte, kept) in buf.iter_mut().zip(bytes.iter().skip(at as usize)) {
                    *byte = *kept;
                }
            }
            _ => {}
        }
        Ok(())
    }

    fn write_at(&mut self, part: Part, at: u64, bytes: &[u8]) -> Result<(), DiskFault> {
        self.wild.write_at(part, at, bytes)
    }

    fn sync(&mut self, part: Part) -> Result<(), DiskFault> {
        self.wild.sync(part)
    }

    fn clock(&self) -> u64 {
        self.wild.clock()
    }

    fn failures(&self) -> u64 {
        self.wild.failures()
    }
}
