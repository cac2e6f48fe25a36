// A whole text at once.
ghost use Rattle.staat_short.specs.ShortFeeds.{IsShortReadAnswer};

use crate::reader::ShortReader;
use crate::short::ShortCertificate;
use staat_cert::CertRefusal;
use std::alloc::Global;

/// The certificate whose text the bytes are.
pub fn read_short(alloc: Global, bytes: &[u8]) -> Result<ShortCertificate, CertRefusal>
    ensures { IsShortReadAnswer bytes.now result }
{
    let new = ShortReader::new(alloc);
    match new {
        Err(_) => Err(CertRefusal::OutOfMemory),
        Ok(mut reader) => {
            let _ = reader.feed(bytes);
            reader.finish()
        }
    }
}
