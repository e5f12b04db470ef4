// What every record with a primary header tells of it.
ghost use Rattle.std.specs.Prelude.{◌≡◌, eqb};
ghost use Rattle.space_packet.specs.Fields.{type_number, id_raw, psc_raw};
ghost use Rattle.space_packet.specs.Header.{packet_len};
ghost use Rattle.space_packet.specs.declared.SpacePacketHeader.{SpacePacketHeader};

use crate::{Apid, PacketId, PacketSequenceControl, PacketType, SeqCount, SequenceFlags, SpHeader};

// A record of a space packet: it hands out its primary header, and the rest is read there.
pub trait CcsdsPacket: Copy {
    ghost primary: { Self → SpacePacketHeader };

    fn sp_header(self) -> SpHeader
        ensures { result ≡ primary self };

    final fn ccsds_version(self) -> u8
        ensures { result ≡ (primary self).version }
    {
        self.sp_header().version
    }

    final fn packet_id(self) -> PacketId
        ensures { result ≡ (primary self).packet_id }
    {
        self.sp_header().packet_id
    }

    final fn psc(self) -> PacketSequenceControl
        ensures { result ≡ (primary self).psc }
    {
        self.sp_header().psc
    }

    final fn data_len(self) -> u16
        ensures { result ≡ (primary self).data_len }
    {
        self.sp_header().data_len
    }

    // The total that the length field states.
    final fn packet_len(self) -> usize
        ensures { result ≡ packet_len (primary self) }
    {
        self.sp_header().packet_len()
    }

    final fn packet_id_raw(self) -> u16
        ensures { result ≡ id_raw (primary self).packet_id }
    {
        self.sp_header().packet_id_raw()
    }

    final fn psc_raw(self) -> u16
        ensures { result ≡ psc_raw (primary self).psc }
    {
        self.sp_header().psc_raw()
    }

    final fn packet_type(self) -> PacketType
        ensures { result ≡ (primary self).packet_id.packet_type }
    {
        self.sp_header().packet_type()
    }

    final fn is_tm(self) -> bool
        ensures { result ≡ eqb (type_number (primary self).packet_id.packet_type) 0 }
    {
        self.sp_header().is_tm()
    }

    final fn is_tc(self) -> bool
        ensures { result ≡ eqb (type_number (primary self).packet_id.packet_type) 1 }
    {
        self.sp_header().is_tc()
    }

    final fn sec_header_flag(self) -> bool
        ensures { result ≡ (primary self).packet_id.sec_header_flag }
    {
        self.sp_header().sec_header_flag()
    }

    final fn apid(self) -> Apid
        ensures { result ≡ (primary self).packet_id.apid }
    {
        self.sp_header().apid()
    }

    final fn seq_count(self) -> SeqCount
        ensures { result ≡ (primary self).psc.seq_count }
    {
        self.sp_header().seq_count()
    }

    final fn sequence_flags(self) -> SequenceFlags
        ensures { result ≡ (primary self).psc.seq_flags }
    {
        self.sp_header().sequence_flags()
    }
}
