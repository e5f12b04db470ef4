// What every record of a PUS packet tells of its secondary header.
ghost use Rattle.std.specs.Prelude.{◌≡◌};
ghost use Rattle.ecss.specs.declared.MessageTypeId.{MessageTypeId};
ghost use Rattle.ecss.specs.declared.PusVersion.{PusVersion};

use crate::{MessageTypeId, PusVersion};
use space_packet::CcsdsPacket;

// A record of a PUS packet: it hands out its message type and its version.
pub trait PusPacket: CcsdsPacket {
    ghost message_type: { Self → MessageTypeId };

    ghost version: { Self → PusVersion };

    fn message_type_id(self) -> MessageTypeId
        ensures { result ≡ message_type self };

    fn pus_version(self) -> PusVersion
        ensures { result ≡ version self };

    final fn service_type_id(self) -> u8
        ensures { result ≡ (message_type self).type_id }
    {
        self.message_type_id().type_id
    }

    final fn message_subtype_id(self) -> u8
        ensures { result ≡ (message_type self).subtype_id }
    {
        self.message_type_id().subtype_id
    }
}
