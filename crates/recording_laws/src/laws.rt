//! Laws of recordings and captures that are measured: each is the contract of a function that does nothing.

ghost use Rattle.recording_laws.specs.Alone.{OnePlaceIsMeasuredAlone};
ghost use Rattle.recording_laws.specs.Exact.{EachMeasurementIsExact};
ghost use Rattle.recording_laws.specs.ExactCapture.{EachMeasurementOfACaptureIsExact};
ghost use Rattle.recording_laws.specs.EachExchange.{EachReportIsOfItsExchange};
ghost use Rattle.recording_laws.specs.Once.{EachDatagramIsCountedOnce};
ghost use Rattle.recording_laws.specs.OwnReported.{EachUsedRecordIsReported};
ghost use Rattle.recording_laws.specs.OwnReadings.{OwnReadingsAreMeasuredAlone, EachOwnReportIsOfItsRecords};

use recording_model::laws::each_report_is_exact;

/// Each report that [`measure`](recording_measure::measure) writes is exact, twice the standard's two results for one Sync of the
/// master and one Delay_Req to it, those that its lines tell. This holds over every accepted run of a network, of
/// whatever length, and all lines of which those that are heard tell what came to one of its slaves and what that sent,
/// with its clock's readings, where no slave's own readings are measured, no number is too old when it is used, ticks come often
/// enough, and few Delay_Reqs are missing in a row. It holds of what is written before a fault, too. When lines tell that is said at
/// [`each_report_is_exact`](recording_model::laws::each_report_is_exact).
pub fn each_measurement_is_exact()
    ensures { EachMeasurementIsExact }
{
    each_report_is_exact();
}

/// Each report that `measure` writes of a capture is exact, too: of packets in the place of lines, of which those are
/// heard that carry a datagram and were captured at the interface that is measured.
pub fn each_measurement_of_a_capture_is_exact()
    ensures { EachMeasurementOfACaptureIsExact }
{
    each_report_is_exact();
}

/// What was met at one place is measured as a recording of which that is all: of lines what is written, whom they are of and what
/// comes of each is by their numbers, times and datagrams alone, and of the packets in one stream of an interface what is written is, where
/// nothing is asked for. Once one stream is measured, a datagram of another one changes nothing of what is written.
pub fn one_place_is_measured_alone()
    ensures { OnePlaceIsMeasuredAlone }
{}

/// Each datagram is counted once, whatever is recorded. One that is heard, of lines or of a capture, has a reason why
/// it gave no report exactly where it gave none; and of lines, where these are fewer than 2^64, the number of reports
/// and all counts of [`Counts`](recording_measure::Counts) are together the number of lines.
pub fn each_datagram_is_counted_once()
    ensures { EachDatagramIsCountedOnce }
{}

/// Each report that is written has the exchange that it was made of, and its two results are those of the four times
/// and the corrections of that. So with [`Form::FullJson`](recording_measure::Form) and [`Form::FullTable`](recording_measure::Form) nothing is
/// left out, and [`each_offset_is_of_its_times`](recording_measure::laws::each_offset_is_of_its_times) holds in each line.
pub fn each_report_is_of_its_exchange()
    ensures { EachReportIsOfItsExchange }
{}

/// What `measure` reads is a slave's own readings alone, or none of them, and so are all reports of it: once own ones are measured, nothing
/// that was captured is, before it or after. This holds whatever is read, of lines and of packets.
pub fn own_readings_are_measured_alone()
    ensures { OwnReadingsAreMeasuredAlone }
{}

/// Each report that is made of a slave's own readings (IEEE 1588-2019, 16.11) is of one record of a Sync and one of an exchange, which the
/// watched slave told of the watched master in the watched domain, until then: it has their times, corrections and numbers, and twice the
/// standard's two results for them. One exception is named: the time of the Delay_Req may be that of an exchange with another master which
/// that slave told under the same number, since the port takes both for one Delay_Req. This holds whatever is read.
pub fn each_own_report_is_of_its_records()
    ensures { EachOwnReportIsOfItsRecords }
{}

/// A one-step Sync that the port uses, as a record of a Sync stands for one, brings a report where a Delay_Resp stands in front of it that the
/// port used; and such a Delay_Resp brings one where a one-step Sync does. Between them may stand anything by which the port doesn't begin
/// anew, with fewer than 4,096 Syncs of the master. This holds whatever is recorded, also in rows of one number.
pub fn each_used_record_is_reported()
    ensures { EachUsedRecordIsReported }
{}
