//! Worked examples of bibliographic fields, as theorems on the definitions alone.
#![tactic(auto, unfolding(crate::proofs::Computing::rst_transform_docinfo))]

ghost use Rattle.std.specs.Prelude.{◌≡◌, codes, [], ◌∷◌, map, true};
ghost use Rattle.rst_tree.specs.declared.key.Key.TheVariants.{Ids};
ghost use Rattle.rst_tree.specs.declared.tag.Tag.TheVariants.{Author, BulletList, Comment, Contact, Copyright, Date, Emphasis, Field, FieldBody, FieldList, FieldName, ListItem, Organization, Paragraph, Revision, Status, Subtitle, SystemMessage, Title, Version};
ghost use Rattle.rst_transform_docinfo.specs.declared.bibliography.Row.TheVariants.{Simple, Address, Authors, Topic, Generic};
ghost use Rattle.rst_transform_docinfo.specs.declared.bibliography.TopicKind.TheVariants.{Dedication, Abstract};
ghost use Rattle.rst_settings.specs.Parts.{all_parts, no_parts};
ghost use Rattle.rst_transform_names.specs.Trees.{document_element, element, lists, paragraph, text, IsPrintedIn};
ghost use Rattle.rst_transform_work.specs.Written.{plain_document, knowing, Shows};
ghost use Rattle.rst_transform_docinfo.specs.Authors.{names_in};
ghost use Rattle.rst_transform_docinfo.specs.Bibliography.{bibliography_row};
ghost use Rattle.rst_transform_docinfo.specs.Docinfo.{with_docinfo};
ghost use Rattle.rst_transform_docinfo.specs.Written.{field};

/// The fields that are bibliographic, by their names (Markup Specification, 'Bibliographic Fields').
pub fn bibliographic_fields()
    ensures simple { map bibliography_row (codes "author" ∷ codes "organization" ∷ codes "contact" ∷ codes "version" ∷ codes "revision" ∷ codes "status"
        ∷ codes "date" ∷ codes "copyright" ∷ [])
        ≡ Simple Author ∷ Simple Organization ∷ Simple Contact ∷ Simple Version ∷ Simple Revision ∷ Simple Status ∷ Simple Date ∷ Simple Copyright
        ∷ [] }
    ensures others { map bibliography_row (codes "address" ∷ codes "authors" ∷ codes "dedication" ∷ codes "abstract" ∷ [])
        ≡ Address ∷ Authors ∷ Topic Dedication ∷ Topic Abstract ∷ [] }
    ensures generic { map bibliography_row (codes "title" ∷ codes "Author" ∷ codes "dates" ∷ [] ∷ []) ≡ Generic ∷ Generic ∷ Generic ∷ Generic ∷ [] }
{}

/// What the fields of a leading list become (Markup Specification, 'Bibliographic Fields').
pub fn fields()
    ensures three { Shows (with_docinfo no_parts (plain_document (element FieldList [] (field "Author" (paragraph "Ann" ∷ [])
        ∷ field "Version" (paragraph "1" ∷ []) ∷ field "X y" (paragraph "z" ∷ []) ∷ []) ∷ [])) (knowing [])).0
        ("<document>" ∷ "    <docinfo>" ∷ "        <author>" ∷ "            Ann" ∷ "        <version>" ∷ "            1"
        ∷ "        <field classes=\"x-y\">" ∷ "            <field_name>" ∷ "                X y" ∷ "            <field_body>"
        ∷ "                <paragraph>" ∷ "                    z" ∷ []) }
    ensures no_class { Shows (with_docinfo no_parts (plain_document (element FieldList [] (field "1" [] ∷ []) ∷ [])) (knowing [])).0
        ("<document>" ∷ "    <docinfo>" ∷ "        <field>" ∷ "            <field_name>" ∷ "                1" ∷ "            <field_body>" ∷ []) }
    ensures first_node_of_a_name { Shows (with_docinfo all_parts (plain_document (element FieldList [] (element Field [] (element FieldName []
        (text "a " ∷ element Emphasis [] (text "b" ∷ []) ∷ []) ∷ element FieldBody [] (paragraph "x" ∷ []) ∷ []) ∷ []) ∷ [])) (knowing [])).0
        ("<document>" ∷ "    <docinfo>" ∷ "        <field classes=\"a\">" ∷ "            <field_name>" ∷ "                a "
        ∷ "                <emphasis>" ∷ "                    b" ∷ "            <field_body>" ∷ "                <paragraph>"
        ∷ "                    x" ∷ []) }
    ensures whole_name { Shows (with_docinfo no_parts (plain_document (element FieldList [] (element Field [] (element FieldName []
        (text "a " ∷ element Emphasis [] (text "b" ∷ []) ∷ []) ∷ element FieldBody [] (paragraph "x" ∷ []) ∷ []) ∷ []) ∷ [])) (knowing [])).0
        ("<document>" ∷ "    <docinfo>" ∷ "        <field classes=\"a-b\">" ∷ "            <field_name>" ∷ "                a "
        ∷ "                <emphasis>" ∷ "                    b" ∷ "            <field_body>" ∷ "                <paragraph>"
        ∷ "                    x" ∷ []) }
    ensures address { Shows (with_docinfo no_parts (plain_document (element FieldList [] (field "ADDRESS" (paragraph "a" ∷ []) ∷ []) ∷ [])) (knowing [])).0
        ("<document>" ∷ "    <docinfo>" ∷ "        <address xml:space=\"preserve\">" ∷ "            a" ∷ []) }
    ensures not_in_form { Shows (with_docinfo no_parts (plain_document (element FieldList [] (field "Date" [] ∷ []) ∷ paragraph "x" ∷ [])) (knowing [])).0
        ("<document>" ∷ "    <docinfo>" ∷ "        <field classes=\"date\">" ∷ "            <field_name>" ∷ "                Date"
        ∷ "            <field_body>" ∷ "                <system_message level=\"2\" line=\"1\" type=\"WARNING\">"
        ∷ "                    <paragraph>" ∷ "                        Bibliographic field \"date\" is not in its form." ∷ "    <paragraph>"
        ∷ "        x" ∷ []) }
    ensures two_paragraphs { Shows (with_docinfo no_parts (plain_document (element FieldList [] (field "Status" (paragraph "a" ∷ paragraph "b" ∷ []) ∷ [])
        ∷ [])) (knowing [])).0
        ("<document>" ∷ "    <docinfo>" ∷ "        <field classes=\"status\">" ∷ "            <field_name>" ∷ "                Status"
        ∷ "            <field_body>" ∷ "                <paragraph>" ∷ "                    a" ∷ "                <paragraph>"
        ∷ "                    b" ∷ "                <system_message level=\"2\" line=\"1\" type=\"WARNING\">" ∷ "                    <paragraph>"
        ∷ "                        Bibliographic field \"status\" is not in its form." ∷ []) }
    ensures names { Shows (with_docinfo no_parts (plain_document (element FieldList (lists Ids ("l" ∷ []) ∷ []) (element Field (lists Ids ("f" ∷ [])
        ∷ []) (element FieldName [] (text "date" ∷ []) ∷ element FieldBody [] (paragraph "x" ∷ []) ∷ []) ∷ []) ∷ [])) (knowing [])).0
        ("<document>" ∷ "    <docinfo ids=\"l\">" ∷ "        <date ids=\"f\">" ∷ "            x" ∷ []) }
{}

/// Dedication and abstract: topics after the other elements, whatever the order of the fields (Markup Specification, 'Bibliographic Fields').
pub fn topics()
    ensures both { Shows (with_docinfo no_parts (plain_document (element FieldList [] (field "Abstract" (paragraph "a" ∷ [])
        ∷ field "Dedication" (paragraph "d" ∷ []) ∷ field "Date" (paragraph "x" ∷ []) ∷ []) ∷ [])) (knowing [])).0
        ("<document>" ∷ "    <docinfo>" ∷ "        <date>" ∷ "            x" ∷ "    <topic classes=\"dedication\">" ∷ "        <title>"
        ∷ "            Dedication" ∷ "        <paragraph>" ∷ "            d" ∷ "    <topic classes=\"abstract\">" ∷ "        <title>"
        ∷ "            Abstract" ∷ "        <paragraph>" ∷ "            a" ∷ []) }
    ensures alone { Shows (with_docinfo no_parts (plain_document (element FieldList (lists Ids ("l" ∷ []) ∷ []) (field "Abstract" (paragraph "a"
        ∷ paragraph "b" ∷ []) ∷ []) ∷ [])) (knowing [])).0
        ("<document>" ∷ "    <topic classes=\"abstract\" ids=\"l\">" ∷ "        <title>" ∷ "            Abstract" ∷ "        <paragraph>"
        ∷ "            a" ∷ "        <paragraph>" ∷ "            b" ∷ []) }
    ensures second { map (λ r. r.text) (with_docinfo no_parts (plain_document (element FieldList [] (field "abstract" (paragraph "a" ∷ [])
        ∷ field "abstract" (paragraph "b" ∷ []) ∷ []) ∷ [])) (knowing [])).1.reports
        ≡ codes "Bibliographic field \"abstract\" is not in its form." ∷ [] }
    ensures first_of_the_name { map (λ r. r.number) (with_docinfo no_parts (plain_document (element FieldList [] (field "abstract" []
        ∷ field "abstract" (paragraph "b" ∷ []) ∷ field "dedication" (paragraph "b" ∷ []) ∷ []) ∷ [])) (record (knowing []) { first_number = 7 })).1.reports
        ≡ 7 ∷ 8 ∷ [] }
{}

/// Authors (Markup Specification, 'Bibliographic Fields').
pub fn authors()
    ensures one { IsPrintedIn (document_element (names_in 1 (codes "Ann"))) ("<document>" ∷ "    <author>" ∷ "        Ann" ∷ []) }
    ensures by_commas { IsPrintedIn (document_element (names_in 1 (codes "A, B,, C ")))
        ("<document>" ∷ "    <author>" ∷ "        A" ∷ "    <author>" ∷ "        B" ∷ "    <author>" ∷ "        C" ∷ []) }
    ensures by_semicolons { IsPrintedIn (document_element (names_in 1 (codes "A, B; C")))
        ("<document>" ∷ "    <author>" ∷ "        A, B" ∷ "    <author>" ∷ "        C" ∷ []) }
    ensures none_left { names_in 1 (codes " , ,") ≡ [] }
    ensures field_of_none { map (λ r. r.text) (with_docinfo no_parts (plain_document (element FieldList [] (field "authors" (paragraph ";" ∷ []) ∷ [])
        ∷ [])) (knowing [])).1.reports
        ≡ codes "Bibliographic field \"authors\" is not in its form." ∷ [] }
    ensures of_a_list { Shows (with_docinfo no_parts (plain_document (element FieldList [] (field "Authors" (element BulletList [] (element ListItem []
        (paragraph "A, B" ∷ []) ∷ element ListItem [] (paragraph "C" ∷ []) ∷ []) ∷ []) ∷ []) ∷ [])) (knowing [])).0
        ("<document>" ∷ "    <docinfo>" ∷ "        <authors>" ∷ "            <author>" ∷ "                A, B" ∷ "            <author>"
        ∷ "                C" ∷ []) }
    ensures of_markup { Shows (with_docinfo no_parts (plain_document (element FieldList [] (field "Authors" (element Paragraph [] (text "A; "
        ∷ element Emphasis [] (text "B" ∷ []) ∷ []) ∷ []) ∷ []) ∷ [])) (knowing [])).0
        ("<document>" ∷ "    <docinfo>" ∷ "        <authors>" ∷ "            <author>" ∷ "                A; " ∷ "                <emphasis>"
        ∷ "                    B" ∷ []) }
    ensures without_markup { Shows (with_docinfo all_parts (plain_document (element FieldList [] (field "Authors" (element Paragraph [] (text "A; "
        ∷ element Emphasis [] (text "B" ∷ []) ∷ []) ∷ []) ∷ []) ∷ [])) (knowing [])).0
        ("<document>" ∷ "    <docinfo>" ∷ "        <authors>" ∷ "            <author>" ∷ "                A" ∷ "            <author>"
        ∷ "                B" ∷ []) }
    ensures empty_item { map (λ r. r.text) (with_docinfo no_parts (plain_document (element FieldList [] (field "authors" (element BulletList []
        (element ListItem [] (paragraph "A" ∷ []) ∷ element ListItem [] [] ∷ []) ∷ []) ∷ []) ∷ [])) (knowing [])).1.reports
        ≡ codes "Bibliographic field \"authors\" is not in its form." ∷ [] }
{}

/// Which field list leads a document, and where its elements come (Markup Specification, 'Bibliographic Fields').
pub fn leading_list()
    ensures after_titles { Shows (with_docinfo no_parts (plain_document (element Title [] [] ∷ element Subtitle [] [] ∷ element Comment [] []
        ∷ element FieldList [] (field "date" (paragraph "x" ∷ []) ∷ []) ∷ [])) (knowing [])).0
        ("<document>" ∷ "    <title>" ∷ "    <subtitle>" ∷ "    <docinfo>" ∷ "        <date>" ∷ "            x" ∷ "    <comment>" ∷ []) }
    ensures after_a_message { Shows (with_docinfo no_parts (plain_document (element SystemMessage [] [] ∷ element FieldList [] (field "date" (paragraph "x"
        ∷ []) ∷ []) ∷ [])) (knowing [])).0
        ("<document>" ∷ "    <docinfo>" ∷ "        <date>" ∷ "            x" ∷ "    <system_message line=\"1\">" ∷ []) }
    ensures after_a_paragraph { Shows (with_docinfo no_parts (plain_document (paragraph "a" ∷ element FieldList [] [] ∷ [])) (knowing [])).0
        ("<document>" ∷ "    <paragraph>" ∷ "        a" ∷ "    <field_list>" ∷ []) }
{}
