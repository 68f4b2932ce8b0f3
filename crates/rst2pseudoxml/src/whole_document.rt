//! One document with every construct of the profile, and with markup that leads to most of the messages.

/// The document; `scripts/failing.py` reads it here too.
pub(super) const DOCUMENT: &str = ".. A comment before the title.

=====
Title
=====

Subtitle
--------

:Author: Ann
:Authors: Bob; Cid
:Organization: A *small* one
:Contact: https://x.org/contact
:Address: 1 Some Street
          Some Town
:Version: $Revision: 1.2 $
:Revision: 7
:Status: draft
:Date: 2001-08-16
:Copyright: public
:House number: 7
:Dedication: To all.
:Abstract: Short.

Part
~~~~

A paragraph with *emphasis*, **strong**, ``literal``, `title`, a_, `b c`_, in-between_, anon__,
`here <https://x.org/e>`_,
`there <a_>`__, again__, [1]_, [#]_, [#n]_, [#n]_, [*]_, [c]_, |s|, |t|, |s|_, _`inline target`, `inline target`_,
Part_,
https://x.org/, mailto:me@x.org, escaped\\ :sub:`2` and *no end.

Roles :emphasis:`a` :strong:`b` :literal:`c` :subscript:`d` :sub:`e` :superscript:`f` :sup:`g` :title-reference:`h` :title:`i` `j`:t:
and :nothing:`k` :sub:`l`:sup: :sup:`a`_ unknown_ |unknown| [9]_ [7]_ [d]_ [#m]_ [none]_ twice_

.. _a: https://x.org/a
.. _b c: a_
.. _in-between: inside_
.. __: https://x.org/anon
__ a_
.. _s: https://x.org/s
.. _inside:

Deeper
++++++

.. [1] Note
.. [#] Automatic
.. [#n] Labelled

   - with a list
.. [*] Symbol
.. [c] Citation
.. |s| replace:: some *text*
.. |t| image:: t.png
   :alt: T

* one
* two

  + deeper

3. three
#. four

(a) five

i. six

term : class : another
    A definition.
next
    Another.

:field: body
:*other*: body

   and more

-a               flag
-b VALUE, --all=<X Y>
                 with arguments
/V               of DOS

| line
|   deeper
|     deepest
|
| last

    A quote.

    -- Ann

    Another.

Literal::

    as it is

      deeper

Quoted::

> as
> it is

>>> 1 + 1
2

----

+-----+-----+---+
| a   | b   | c |
+=====+=====+===+
| d   | e - f   |
+ and +-----+---+
| on  | - g | h |
+-----+-----+---+

=====  =====  =====
a          b
------------  -----
c      d      e
=====  =====  =====
f      - g    h
       - i
j
k             l
=====  =====  =====

.. attention:: a
.. caution:: b
.. danger:: c
.. error:: d
.. hint:: e
.. important:: f
.. note:: Take *care*.

   :sup:`1`
.. tip:: g
   :class: special
.. warning:: h
   :name: warned
.. admonition:: And *so* on

   Text.
.. topic:: Topic

   Text.
.. image:: i j.png
   :alt: Picture
   :height: 2 em
   :width: 50%
   :scale: 50 %
   :align: left
   :target: a_
   :class: one two
   :name: picture
.. figure:: f.png
   :figwidth: 10 px
   :figclass: wide
   :align: center

   A caption.

   A legend.
.. code:: python
   :class: shown
   :name: source

   x = 1
.. code::

   plain
.. code:: python
   :number-lines:

   x = 1
.. nothing:: here
.. image::
.. replace:: nowhere

.. _twice: https://x.org/1
.. _twice: https://x.org/2
.. _same: https://x.org/1
.. _same: https://x.org/1
.. [7] Note
.. [7] Note again
.. [d] Citation
.. [d] Citation again
.. |u| replace:: u
.. |u| replace:: again
.. _bad target
.. _round: about_
.. _about: round_

round_ Part_

Part
~~~~

\tA quote by a tab.

+---+
| a

== ==
a
";
